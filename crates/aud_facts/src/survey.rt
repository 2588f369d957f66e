//! One walk over the facts, which learns all that their status needs.

ghost use Rattle.std.specs.Prelude.{◌≡◌, false, length};
ghost use Rattle.aud_event.specs.declared.limits.TheConstants.{STAMPS};
ghost use Rattle.aud_facts.specs.Scans.{AreWithin, AreStamps, IsCalm, IsSurvey};

use crate::scan::Scan;
use crate::table::{
    PerLog, no_bounds, no_counts, no_places, note_count, note_place, note_record, note_stamp,
};
use aud_event::Fact;
use aud_lattice::UnionSet;
use std::alloc::Allocator;

/// What a walk over all facts learns: the first two records at one place, the first two counts of one log and the first
/// stamp that does not rise; of each log the least count, the number after the greatest place, and how many records it
/// has; how many records there are; and whether a stamp came twice.
#[derive(Clone, Copy)]
pub struct Survey {
    pub twins: Option<(u32, u32)>,
    pub two_counts: Option<(u32, u32)>,
    pub falls: Option<(u32, u32)>,
    pub bounds: PerLog<Option<u32>>,
    pub tops: PerLog<u32>,
    pub counts: PerLog<usize>,
    pub records: usize,
    pub crowded: bool,
}

/// Surveys the facts, and writes into the marks whether none, one or more records have a stamp.
pub fn survey_of<A: Allocator + Copy>(set: &UnionSet<Fact, A>, marks: &mut [u8]) -> Survey
    requires within { AreWithin set.now }
    requires len { length marks.old ≡ STAMPS }
    ensures len { length marks.new ≡ STAMPS }
    ensures stamps { AreStamps set.now marks.new }
    ensures calm { result.crowded ≡ false → IsCalm marks.new }
    ensures survey { IsSurvey set.now result }
{
    let _most = set.len();
    let mut places = Scan::start();
    let mut stamps = Scan::start();
    let mut ends = Scan::start();
    let mut bounds = no_bounds();
    let mut tops = no_places();
    let mut counts = no_counts();
    let mut records = 0usize;
    let mut crowded = false;
    marks.fill(0);
    for fact in set.items() {
        match fact {
            Fact::Rec(seen) => {
                places.see_place(seen);
                stamps.see_stamp(seen);
                note_place(&mut tops, seen.log as usize, seen.at);
                note_record(&mut counts, seen.log as usize);
                if note_stamp(marks, seen.stamp as usize) {
                    crowded = true;
                }
                records += 1;
            }
            Fact::End(seen) => {
                ends.see_count(seen);
                note_count(&mut bounds, seen.log as usize, seen.count);
            }
        }
    }
    Survey {
        twins: places.found,
        two_counts: ends.found,
        falls: stamps.found,
        bounds,
        tops,
        counts,
        records,
        crowded,
    }
}
