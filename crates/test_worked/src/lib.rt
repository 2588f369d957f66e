#![tactic(auto)]
//! The worked histories as texts: small runs as `docs/FORMAT.md` spells them, each named for what it shows, and a reader
//! of them. Only tests stand on this crate.

mod histories;
mod inputs;
mod reading;

pub use histories::{
    ABORT_WHILE_IDLE, ANSWER_UNASKED, BAD_COUNT, BOTH_FIND_IT_ABSENT, COUNT_IS_LOST, FIVE_COUNTERS,
    IDLE_WRITE_STANDS_LATER, ITEM_IS_PASSED_ON, LIVE_WRITE_IS_SEEN, NINE_COUNTERS,
    NOTHING_HAPPENED, PENDING_COMMIT_IS_SEEN, PENDING_COMMIT_IS_UNSEEN, READ_BEFORE_COMMIT,
    READ_OF_NOTHING, READER_AFTER_COMMIT, STALE_READ_AFTER_COMMIT, TORN_READ_THEN_ABORT,
};
pub use inputs::{
    FALLING_STAMPS, GREAT_TRANSACTION, GREATEST_TRANSACTION, LATE, LATE_RECORD, MISSING_STAMP,
    NO_RECORDS, PAST_COUNT, SAME_STAMPS, TWO_COUNTS, TWO_RECORDS,
};
pub use reading::{Unread, facts_of, facts_on, history_of, put, sealed_from, sealed_of};
