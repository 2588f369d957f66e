//! Laws of the definitions. Each function does nothing: its contract is the law.

ghost use Rattle.aud_facts.specs.Growth.{SealedIsFull};
ghost use Rattle.aud_facts.specs.Quiet.{QuietIsNoConflict, PartsAreQuiet, SealedIsAll};
ghost use Rattle.aud_facts.specs.Joins.{JoinsCommute, JoinsAssociate, JoinsRepeat, UnionsCommute, UnionsAssociate, UnionsRepeat};

use aud_event::{Fact, Key};

/// A sealed set that gains a new fact is in conflict.
pub fn sealed_is_full()
    ensures { SealedIsFull }
{}

/// Facts are quiet, no two of them clashing, exactly where their status is no conflict.
pub fn quiet_is_no_conflict()
    ensures { QuietIsNoConflict }
{}

/// A part of quiet facts is quiet.
pub fn parts_are_quiet()
    ensures { PartsAreQuiet }
{}

/// Of quiet facts, all that fit one plan, a sealed part is the whole.
pub fn sealed_is_all()
    ensures { SealedIsAll }
{}

#[tactic(auto, using(crate::proofs::Unions::unions_commute))]
fn unions_commute<T: Key>()
    ensures { UnionsCommute T.Ord.cmp }
{}

#[tactic(auto, using(crate::proofs::Unions::unions_associate))]
fn unions_associate<T: Key>()
    ensures { UnionsAssociate T.Ord.cmp }
{}

#[tactic(auto, using(crate::proofs::Unions::unions_repeat))]
fn unions_repeat<T: Key>()
    ensures { UnionsRepeat T.Ord.cmp }
{}

/// Of two sets of one plan it does not show which is joined to the other.
pub fn joins_commute()
    ensures { JoinsCommute }
{
    unions_commute::<Fact>();
}

/// The grouping of joins does not show.
pub fn joins_associate()
    ensures { JoinsAssociate }
{
    unions_associate::<Fact>();
}

/// A set that takes in its own facts stays.
pub fn joins_repeat()
    ensures { JoinsRepeat }
{
    unions_repeat::<Fact>();
}
