//! A gate that lets every worker pass.

use aud_witness::Prefix;
use node_pool::Gate;

/// Lets every worker pass.
#[derive(Clone, Copy, Debug, PartialEq, Eq)]
pub struct NoGate;

impl Gate<Prefix> for NoGate {
    fn before(&self, _worker: u32, _task: &Prefix) {}

    fn after(&self, _worker: u32, _task: &Prefix) {}
}
