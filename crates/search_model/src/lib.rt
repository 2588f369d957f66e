#![tactic(auto)]
//! What executions need of the objects that they are on, and what they do there, as the laws of refutations and the engine that makes them
//! see it: of a cell (a register, an element of a set, a key of a map) what is there first and last; of a number (a counter, an element as
//! 0 or 1, a queue's length) by how much it changes and what it must have been; of a queue what is added and taken.

mod cell;
mod cells;
mod numbers;
mod operations;
mod quantity;
mod queues;

pub use cell::{Cell, Need};
pub use cells::{leaves, meets, moves, needs};
pub use numbers::{asked, change_by, contradict, net};
pub use operations::{
    added_item, asks, cell_of, count_change, count_seen, is_addition, is_addition_of, puts,
    taken_item,
};
pub use quantity::{Quantity, object_of};
pub use queues::{Asked, adds_value, asked_at, count_takes, place_of_take, takes_value};
