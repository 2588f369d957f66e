//! The laws of covers as facts that a caller's proof can take.

ghost use Rattle.aud_lattice.specs.Nodes.{SettlesNodes};
ghost use Rattle.aud_lattice.specs.Norms.{IsNormOfUnion, IsNormWithNorm, IsNormOfFirsts};

use base_values::{Dup, Key};
use std::alloc::Allocator;

/// The cover of a union is the cover of the covers.
#[tactic(auto, using(crate::proofs::Normed::norm_of_union))]
pub fn norm_of_union<D: Key>()
    ensures { IsNormOfUnion D.Ord.cmp }
{}

/// Lists beside the cover of others have the cover of both together.
#[tactic(auto, using(crate::proofs::Normed::norm_with_norm))]
pub fn norm_with_norm<D: Key>()
    ensures { IsNormWithNorm D.Ord.cmp }
{}

/// The cover of some lists keeps those of which no proper beginning is there.
#[tactic(auto, using(crate::proofs::Normed::norm_of_firsts))]
pub fn norm_of_firsts<D: Key>()
    ensures { IsNormOfFirsts D.Ord.cmp }
{}

/// Tries of the same lists have the same nodes, and the same of them are members.
#[tactic(auto, using(crate::proofs::Settled::settled))]
pub fn tries_are_settled<D: Key + Dup, A: Allocator + Copy>()
    ensures { SettlesNodes A D.Ord.cmp }
{}
