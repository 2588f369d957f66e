//! Tables over logs and stamps.

ghost use Rattle.std.specs.Prelude.{◌≡◌, ℕ, ◌<◌, length, slice_index_or, false, None};
ghost use Rattle.aud_event.specs.declared.limits.TheConstants.{LOGS_MAX, PLACES};
ghost use Rattle.aud_facts.specs.Scans.{CountsOneMore, MarksOneMore, NotesCount, NotesPlace, StaysCalm};

use aud_event::limits::LOGS_MAX;

/// Something of each log.
pub type PerLog<T> = [T; LOGS_MAX as usize];

/// No count of any log.
pub fn no_bounds() -> PerLog<Option<u32>>
    ensures { (log : ℕ) → log < LOGS_MAX → slice_index_or result log None ≡ None }
{
    [None; LOGS_MAX as usize]
}

/// Nothing in any log.
pub fn no_places() -> PerLog<u32>
    ensures { (log : ℕ) → log < LOGS_MAX → slice_index_or result log 0 ≡ 0 }
{
    [0; LOGS_MAX as usize]
}

/// No record in any log.
pub fn no_counts() -> PerLog<usize>
    ensures { (log : ℕ) → log < LOGS_MAX → slice_index_or result log 0 ≡ 0 }
{
    [0; LOGS_MAX as usize]
}

/// Notes the count of an end mark: the least count of its log stays.
pub fn note_count(bounds: &mut PerLog<Option<u32>>, log: usize, count: u32)
    requires { log < LOGS_MAX }
    ensures { NotesCount bounds.old bounds.new log count }
{
    match bounds[log] {
        Some(least) if least <= count => {}
        _ => bounds[log] = Some(count),
    }
}

/// Notes the place of a record: the number after the greatest place of its log stays.
pub fn note_place(tops: &mut PerLog<u32>, log: usize, at: u32)
    requires log { log < LOGS_MAX }
    requires at { at < PLACES }
    ensures { NotesPlace tops.old tops.new log at }
{
    if tops[log] <= at {
        tops[log] = at + 1;
    }
}

/// Counts a record of the log.
pub fn note_record(counts: &mut PerLog<usize>, log: usize)
    requires log { log < LOGS_MAX }
    requires room { slice_index_or counts.old log 0 < usize.MAX }
    ensures { CountsOneMore counts.old counts.new log }
{
    counts[log] += 1;
}

/// Notes a stamp: none, one, or more have it. It says whether one had it already.
pub fn note_stamp(marks: &mut [u8], stamp: usize) -> bool
    requires { stamp < length marks.old }
    ensures len { length marks.new ≡ length marks.old }
    ensures calm { result ≡ false → StaysCalm marks.old marks.new }
    ensures marks { MarksOneMore marks.old marks.new stamp }
{
    let is_marked = marks[stamp] > 0;
    if marks[stamp] < 2 {
        marks[stamp] += 1;
    }
    is_marked
}
