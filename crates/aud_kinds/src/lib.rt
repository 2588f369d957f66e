#![tactic(auto)]
//! The kinds of sequential objects: registers, counters, sets, queues and maps.
//!
//! What each operation answers and leaves stands in specs/Objects.antt as a table. Which lists of events are legal is said
//! there too, object by object. A kind is a type with `ObjectSpec`, whose contract is that table; what it changed it takes
//! back with no memory.
//!
//! For whoever runs operations on one object; the states of all objects of a plan are in `aud_object`. `apply` runs an operation and answers as
//! the object does; `apply_with_undo` says besides what changed, which `back` takes back.
//!
//! ```
//! let mut count = Counter::<Global>::opening(Global, 7);
//! let (answer, change) = Counter::<Global>::apply_with_undo(&mut count, &Op::Inc)?;
//! if let Some(change) = change {
//!     Counter::<Global>::back(&mut count, change);
//! }
//! ```

mod counter_kind;
mod map_kind;
mod queue_kind;
mod register_kind;
mod set_kind;
mod spec;

pub use counter_kind::Counter;
pub use map_kind::MapOf;
pub use queue_kind::Queue;
pub use register_kind::Register;
pub use set_kind::SetOf;
pub use spec::ObjectSpec;
