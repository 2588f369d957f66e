//! Laws of the definitions. Each function does nothing: its contract is the law.

ghost use Rattle.aud_witness.specs.Sameness.{InterleavingIsFree, SerialIsOpaque, NamesAreFree, NeighboursMaySwap, KeptAreSerial, AbortedIsUnseen};
ghost use Rattle.aud_witness.specs.Walks.{WalksAreGood};
ghost use Rattle.aud_witness.specs.Laws.{DecisionsAreOrdered, ShowsIsFullAndGood, BadIsRefuted, TestIsDefinition, EnumerationIsWhole, NoFaultIsShows, VisibleIsSelection, OpaqueIsLetter, LetterIsOpaque};

/// Decisions are ordered by the transaction's number, and of one transaction `C` comes before `A`.
pub fn decisions_are_ordered()
    ensures { DecisionsAreOrdered }
{}

/// An order shows a history exactly where it is full and each decision in turn is good.
pub fn shows_is_full_and_good()
    ensures { ShowsIsFullAndGood }
{}

/// No order that begins with a prefix that is not good shows the history.
pub fn bad_is_refuted()
    ensures { BadIsRefuted }
{}

/// The test by computing over prefixes is the definition.
pub fn test_is_definition()
    ensures { TestIsDefinition }
{}

/// The enumeration of permutations with fates misses no order that shows.
pub fn enumeration_is_whole()
    ensures { EnumerationIsWhole }
{}

/// An order has no fault exactly where it shows.
pub fn no_fault_is_shows()
    ensures { NoFaultIsShows }
{}

/// What a transaction sees, by recursion along the order, is what is selected from the joined blocks.
pub fn visible_is_selection()
    ensures { VisibleIsSelection }
{}

/// For a well-formed history, opacity by orders is opacity by the letter of 2008.
pub fn opaque_is_letter()
    ensures { OpaqueIsLetter }
{}

/// Opaque by the letter is what is well-formed and opaque by orders.
pub fn letter_is_opaque()
    ensures { LetterIsOpaque }
{}

/// How events of concurrent transactions interleave does not matter.
pub fn interleaving_is_free()
    ensures { InterleavingIsFree }
{}

/// A complete, sequential and legal history is opaque.
pub fn serial_is_opaque()
    ensures { SerialIsOpaque }
{}

/// The names of transactions do not matter.
pub fn names_are_free()
    ensures { NamesAreFree }
{}

/// Neighbouring events of two transactions may change places unless that orders the two in real time.
pub fn neighbours_may_swap()
    ensures { NeighboursMaySwap }
{}

/// In an order that shows, the blocks with fate C alone are legal one after the other.
pub fn kept_are_serial()
    ensures { KeptAreSerial }
{}

/// Nobody sees a transaction of fate A: without it the rest of the order shows the rest of the history.
pub fn aborted_is_unseen()
    ensures { AbortedIsUnseen }
{}

/// Decisions can be placed in turn by the rows of the table exactly where they are good, and show the history exactly where
/// that leaves no row unplaced.
pub fn walks_are_good()
    ensures { WalksAreGood }
{}
