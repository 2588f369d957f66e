#![tactic(auto)]
//! Laws of cells: who left in a register, an element of a set or a key of a map what a transaction first needs of it.

mod between;
mod change;
mod clash;
mod law;
mod opening;
mod outside;
mod sources;

pub use law::CellLaw;
