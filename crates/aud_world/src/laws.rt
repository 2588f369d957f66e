//! Laws of the definitions. Each function does nothing: its contract is the law.

ghost use Rattle.aud_world.specs.Headline.{HeadlineHolds};
ghost use Rattle.aud_world.specs.Logs.{LogsAreMoves, LogsHaveMoves, QuietIsMade};
ghost use Rattle.aud_world.specs.Took.{AtomsAreTaken};

use aud_facts::laws::{parts_are_quiet, sealed_is_all};
use aud_know::laws::{
    knowledge_is_norm, norm_absorbs, norm_is_of_set, not_opaque_is_refuted, opaque_is_shown,
    verdict_is_one,
};
use std::alloc::Allocator;

/// A world that stands for moves has the headline, where each fact and each finding of the moves is of the world's plan.
pub fn headline_holds<A: Allocator>()
    ensures { HeadlineHolds A }
{
    norm_is_of_set();
    verdict_is_one::<A>();
    opaque_is_shown::<A>();
    not_opaque_is_refuted::<A>();
    parts_are_quiet();
    sealed_is_all();
}

/// The atoms of a node are those that it was fed, that it found, and that it got in packets.
pub fn atoms_are_taken<A: Allocator>()
    ensures { AtomsAreTaken A }
{}

/// What a running node was offered makes known what a node of a world holds that took it: a fact is a `Feed`, a finding a `Find`, a
/// Knowledge a `Deliver` of a packet that holds it. So what `headline_holds` says of nodes at any moments holds of running nodes,
/// and of each list that a reading stands on.
pub fn logs_are_moves<A: Allocator>()
    ensures { LogsAreMoves A }
{
    norm_is_of_set();
    norm_absorbs();
}

/// For each log there are such moves, each of them true, where the Knowledge in it was made of facts and true findings: for each
/// Knowledge another node is given these, and posts them.
pub fn logs_have_moves<A: Allocator>()
    ensures { LogsHaveMoves A }
{}

/// A Knowledge whose facts conflict nowhere was made of facts and true findings.
pub fn quiet_is_made<A: Allocator>()
    ensures { QuietIsMade A }
{
    norm_is_of_set();
    knowledge_is_norm();
}
