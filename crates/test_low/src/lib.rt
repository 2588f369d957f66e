#![tactic(auto)]
//! The tests of the crates up to histories, orders and facts. They stand here, over the public calls, so that each of those
//! crates is proved once. Those in which growths of memory are refused are unproved: `tests/refused` runs them.

#[cfg(test)]
mod events;
#[cfg(test)]
mod facts;
#[cfg(test)]
mod fixtures;
#[cfg(test)]
mod joins;
#[cfg(test)]
mod objects;
#[cfg(test)]
mod orders;
