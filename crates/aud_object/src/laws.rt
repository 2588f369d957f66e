//! Laws about the definitions, each the contract of a function that does nothing.

ghost use Rattle.std.specs.Prelude.{◌≡◌};
ghost use Rattle.aud_object.specs.Laws.{EachOtherChanges, EachObservingTells, OtherKindsStay, ReplayIsLegality, OpeningIsLegality, LegalityIsByParts, BlocksReplayInTurn};
ghost use Rattle.aud_object.specs.Orders.{StoresAreOrdered};

/// No row is forgotten in the tables of what operations answer and leave: each operation that does not observe changes some
/// state of its kind, each that observes tells two states of its kind apart, and one of another kind does nothing.
pub fn each_row_counts()
    ensures changes { EachOtherChanges }
    ensures tells { EachObservingTells }
    ensures others { OtherKindsStay }
{}

/// A replay fails exactly where the block is not legal on each object, and else leads to the states after it.
pub fn replay_is_legality()
    ensures { ReplayIsLegality }
{}

/// What is legal for a plan is what is legal from the states at which its objects open.
pub fn opening_is_legality()
    ensures { OpeningIsLegality }
{}

/// Events after whole executions are legal exactly where both are, the later ones from the states after the earlier ones.
pub fn legality_is_by_parts()
    ensures { LegalityIsByParts }
{}

/// A replay from the states after legal blocks decides whether those blocks and this one are legal.
pub fn blocks_replay_in_turn()
    ensures { BlocksReplayInTurn }
{}

/// The order of stores is total, and ties just where their states are the same.
pub fn stores_are_ordered()
    ensures { StoresAreOrdered }
{}
