#![tactic(auto)]
//! Texts in and out: plans, facts and order texts, each read by its written grammar.
//!
//! For whoever reads what opaq reads, or writes it. `read_plan` reads the plan that a text begins with, and says where that ends; `read_fact` reads
//! a line, `write_fact` writes one; `read_order` and `write_order` do so with orders. Each fault of a text has a number.
//!
//! ```
//! let (plan, used) = read_plan(alloc, text)?;
//! let mut rest = next_filled(&text[used..], count_lines(&text[..used]) + 1);
//! while let Some(next) = rest {
//!     let fact = read_fact(alloc, &plan, next.line)?;
//!     rest = next_filled(next.rest, next.number + 1);
//! }
//! ```

mod fact;
mod fault;
mod header;
mod line;
mod object;
mod order;
mod plan;
mod spelled;
mod value;
mod word;
mod write;

pub use aud_json::{
    TextFault, has_only_allowed, has_required, judge, text_if_there, whole_of, word_of,
};
pub use fact::{LINE_MAX, read_fact};
pub use fault::PlanTextFault;
pub use line::{FilledLine, LineAt, count_lines, first_line, next_filled};
pub use order::{
    ORDER_MAX, orders_read_back, orders_read_exactly, push_order, read_order, write_order,
};
pub use plan::read_plan;
pub use spelled::after;
pub use value::json_in;
pub use write::{facts_read_back, write_fact};
