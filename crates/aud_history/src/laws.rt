//! Laws of the definitions. Each function does nothing: its contract is the law.

ghost use Rattle.aud_history.specs.Laws.{BeginningsAreWellFormed, TableIsDefinition, TableReportsTheRule, BeforeIsByPlaces, BlockIsEvents, BeforeIsByStamps, OnlyPendingCommit, CompletedIsWellFormed};

/// A beginning of a well-formed history is well-formed.
pub fn beginnings_are_well_formed()
    ensures { BeginningsAreWellFormed }
{}

/// The table of states takes exactly what the definition by executions and endings takes.
pub fn table_is_definition()
    ensures { TableIsDefinition }
{}

/// The table reports a rule exactly for an event that a well-formed transaction cannot go on with.
pub fn table_reports_the_rule()
    ensures { TableReportsTheRule }
{}

/// Real time, computed along the history, is what a cut of the history shows.
pub fn before_is_by_places()
    ensures { BeforeIsByPlaces }
{}

/// On each object the block of a transaction's row is what the transaction did there.
pub fn block_is_events()
    ensures { BlockIsEvents }
{}

/// Real time is known by the stamps of the rows: the earlier transaction is completed, and its last stamp is below the
/// later one's first.
pub fn before_is_by_stamps()
    ensures { BeforeIsByStamps }
{}

/// Of the transactions of a history only committed and commit-pending ones are committed in a completion of it.
pub fn only_pending_commit()
    ensures { OnlyPendingCommit }
{}

/// What has a well-formed completion is well-formed.
pub fn completed_is_well_formed()
    ensures { CompletedIsWellFormed }
{}
