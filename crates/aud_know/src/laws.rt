//! Laws of the definitions. Each function does nothing: its contract is the law.

ghost use Rattle.aud_know.specs.Laws.{NormIsExact, NormIsOfSet, KnowledgeIsNorm, NormAbsorbs, VerdictIsOne, OpaqueIsShown, NotOpaqueIsRefuted};

use aud_cover::laws::closed_is_refuted;
use aud_facts::laws::quiet_is_no_conflict;
use std::alloc::Allocator;

/// The normal form of atoms is what has exactly their facts, those of their refuted prefixes of which no proper beginning is
/// refuted by them, and the least of their witnesses.
pub fn norm_is_exact()
    ensures { NormIsExact }
{}

/// Equal sets of atoms have one normal form: order, grouping and repeats do not show.
pub fn norm_is_of_set()
    ensures { NormIsOfSet }
{}

/// A Knowledge is the normal form of its own atoms, so what a take leaves is that of these and of those taken.
pub fn knowledge_is_norm()
    ensures { KnowledgeIsNorm }
{}

/// The atoms that a normal form absorbed do not show in one that takes it.
pub fn norm_absorbs()
    ensures { NormAbsorbs }
{}

/// Equal Knowledge has one verdict.
pub fn verdict_is_one<A: Allocator>()
    ensures { VerdictIsOne A }
{}

/// Opaque is said with an order that shows a sealed well-formed history.
pub fn opaque_is_shown<A: Allocator>()
    ensures { OpaqueIsShown A }
{
    quiet_is_no_conflict();
}

/// NotOpaque is said of a sealed well-formed history that no order shows.
pub fn not_opaque_is_refuted<A: Allocator>()
    ensures { NotOpaqueIsRefuted A }
{
    quiet_is_no_conflict();
    closed_is_refuted();
}
