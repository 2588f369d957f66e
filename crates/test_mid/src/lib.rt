#![tactic(auto)]
//! The tests of the crates between the facts and knowledge. Those in which growths of memory are refused are unproved: `tests/refused`
//! runs them.

#[cfg(test)]
mod certs;
#[cfg(test)]
mod fixtures;
#[cfg(test)]
mod refutations;
#[cfg(test)]
mod report;
#[cfg(test)]
mod search;
#[cfg(test)]
mod splits;
#[cfg(test)]
mod text;
#[cfg(test)]
mod worlds;
