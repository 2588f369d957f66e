//! The status of a set of facts.

ghost use Rattle.std.specs.Prelude.{◌≡◌};
ghost use Rattle.aud_facts.specs.Kinds.{kind_number};

/// The kinds of conflict between two facts, in the order in which they are reported.
#[derive(Clone, Copy, Debug, PartialEq, Eq)]
pub enum Kind {
    /// Two different records at one place of one log.
    TwoRecords,
    /// One stamp at two places.
    StampTwice,
    /// Two end marks of one log with different counts.
    TwoCounts,
    /// A record at a place that is not below a count of its log.
    PastCount,
    /// A later place of a log that has no greater stamp.
    StampOrder,
}

impl Kind {
    /// The kind's number, 1 to 5, as it is printed.
    pub fn number(&self) -> u32
        ensures { result ≡ kind_number self.now }
    {
        match self {
            Kind::TwoRecords => 1,
            Kind::StampTwice => 2,
            Kind::TwoCounts => 3,
            Kind::PastCount => 4,
            Kind::StampOrder => 5,
        }
    }
}

/// What a set of facts is: the first of these that holds.
#[derive(Clone, Copy, Debug, PartialEq, Eq)]
pub enum FactStatus {
    /// Two facts contradict each other: the least kind, and the least log and place of that kind. Of two counts, the log
    /// and its least count are reported instead.
    Conflict(Kind, u32, u32),
    /// The least log without an end mark, or with fewer records than its count.
    Waiting(u32),
    /// The least stamp below the number of all records that no record has.
    Gap(u32),
    /// Every log has its end mark and exactly its count of records, and the stamps are all below their number.
    Sealed,
}
