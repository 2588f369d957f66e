//! Certificates: lists of refuted prefixes, each with what it is refuted by.

ghost use Rattle.std.specs.Prelude.{◌≡◌};
ghost use Rattle.cert_accept.specs.Acceptance.{prefix_in};

use aud_witness::{Decision, Prefix};
use std::alloc::{Allocator, Global};

/// A refuted prefix, and what it is refuted by.
#[derive(Debug, Drop)]
pub enum CertLine<A: Allocator = Global> {
    /// Each kid of the prefix is refuted by an earlier line.
    Kids(Prefix<A>),
    /// The decision is of a silent transaction, with its silent fate, and good after the prefix, and an earlier line refutes where it
    /// leads.
    Silent(Prefix<A>, Decision),
    /// An earlier line refutes the second prefix, which places the same transactions and leaves the same states.
    Same(Prefix<A>, Prefix<A>),
}

impl<A: Allocator> CertLine<A> {
    /// The prefix that the line refutes.
    pub fn prefix(&self) -> &Prefix<A>
        ensures { result.now ≡ prefix_in self.now }
    {
        match self {
            CertLine::Kids(prefix) => prefix,
            CertLine::Silent(prefix, _) => prefix,
            CertLine::Same(prefix, _) => prefix,
        }
    }
}

/// Lines that refute prefixes, each by those before it; the last refutes the empty prefix.
#[derive(Debug, Drop)]
pub struct Cert<A: Allocator = Global> {
    pub lines: Vec<CertLine<A>, A>,
}
