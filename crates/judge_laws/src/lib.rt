#![tactic(auto)]
//! The laws of all kinds of objects, as one type. A kind more is a case more here.

mod law;

pub use judge_cells::CellLaw;
pub use judge_queues::{FrontItem, QueueLaw};
pub use judge_sums::SumLaw;
pub use law::ObjectLaw;
