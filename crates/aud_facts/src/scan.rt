//! Searches for the first conflict between facts that stand next to each other.

ghost use Rattle.std.specs.Prelude.{◌≡◌, ◌∷◌, List, None};
ghost use Rattle.aud_event.specs.declared.fact.Fact.{Fact};
ghost use Rattle.aud_facts.specs.Scans.{is_at, is_in, is_fall, twins_after, counts_after, falls_after};

use aud_event::{EndMark, Record};

/// A scan on the way: what it last saw, and the place that it found.
#[derive(Clone, Copy)]
pub struct Scan {
    pub last: Option<(u32, u32)>,
    pub found: Option<(u32, u32)>,
}

fn stands_at(last: Option<(u32, u32)>, log: u32, at: u32) -> bool
    ensures { result ≡ is_at last (log, at) }
{
    match last {
        None => false,
        Some((l, a)) => l == log && a == at,
    }
}

fn stands_in(last: Option<(u32, u32)>, log: u32) -> bool
    ensures { result ≡ is_in last log }
{
    match last {
        None => false,
        Some((l, _)) => l == log,
    }
}

fn falls_from(last: Option<(u32, u32)>, log: u32, stamp: u32) -> bool
    ensures { result ≡ is_fall last log stamp }
{
    match last {
        None => false,
        Some((l, s)) => l == log && stamp <= s,
    }
}

impl Scan {
    /// A scan that saw nothing yet.
    pub fn start() -> Scan
        ensures { result ≡ record { last = None; found = None } }
    {
        Scan {
            last: None,
            found: None,
        }
    }

    /// Goes on to a record, in search of one at the place of the one before it.
    pub fn see_place(&mut self, seen: &Record)
        ensures { (rest : List Fact) → twins_after self.new rest ≡ twins_after self.old (Fact.Rec seen.now ∷ rest) }
    {
        if self.found.is_none() && stands_at(self.last, seen.log, seen.at) {
            self.found = Some((seen.log, seen.at));
        }
        self.last = Some((seen.log, seen.at));
    }

    /// Goes on to a record, in search of one whose stamp is not above that of the one before it in its log.
    pub fn see_stamp(&mut self, seen: &Record)
        ensures { (rest : List Fact) → falls_after self.new rest ≡ falls_after self.old (Fact.Rec seen.now ∷ rest) }
    {
        if self.found.is_none() && falls_from(self.last, seen.log, seen.stamp) {
            self.found = Some((seen.log, seen.at));
        }
        self.last = Some((seen.log, seen.stamp));
    }

    /// Goes on to an end mark, in search of one of the log of the next.
    pub fn see_count(&mut self, seen: &EndMark)
        ensures { (rest : List Fact) → counts_after self.new rest ≡ counts_after self.old (Fact.End seen.now ∷ rest) }
    {
        if self.found.is_none() && stands_in(self.last, seen.log) {
            self.found = self.last;
        }
        self.last = Some((seen.log, seen.count));
    }
}
