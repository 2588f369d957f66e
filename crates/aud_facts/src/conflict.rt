//! The status of a set of facts, by what a walk over it learned.

ghost use Rattle.std.specs.Prelude.{◌≡◌, ◌≤◌, ◌<◌, ℕ, None, true, false, length};
ghost use Rattle.std.specs.List.{list_any};
ghost use Rattle.aud_event.specs.declared.limits.TheConstants.{LOGS_MAX, STAMPS};
ghost use Rattle.aud_facts.specs.declared.status.Kind.TheVariants.{TwoRecords, StampTwice, TwoCounts, PastCount, StampOrder};
ghost use Rattle.aud_facts.specs.Clashes.{conflict};
ghost use Rattle.aud_facts.specs.Order.{AreOrdered};
ghost use Rattle.aud_facts.specs.Status.{fact_status, count, is_record, is_waiting, is_missing, is_mark_within, least_below};
ghost use Rattle.aud_facts.specs.Scans.{AreWithin, AreStamps, AreBounds, IsCalm, IsSurvey, IsUnderrun, first_place, is_past, is_twice};

use crate::status::{FactStatus, Kind};
use crate::survey::{Survey, survey_of};
use crate::table::PerLog;
use aud_event::Fact;
use aud_event::limits::{LOGS_MAX, STAMPS};
use aud_lattice::UnionSet;
use std::alloc::Allocator;

fn first_two_records<A: Allocator + Copy>(
    _set: &UnionSet<Fact, A>,
    survey: &Survey,
) -> Option<(u32, u32)>
    requires ordered { AreOrdered _set.now }
    requires survey { IsSurvey _set.now survey.now }
    ensures { result ≡ conflict TwoRecords _set.now }
{
    survey.twins
}

fn stamp_twice<A: Allocator + Copy>(set: &UnionSet<Fact, A>, marks: &[u8]) -> Option<(u32, u32)>
    requires within { AreWithin set.now }
    requires len { length marks.now ≡ STAMPS }
    requires stamps { AreStamps set.now marks.now }
    ensures { result ≡ first_place (is_twice set.now) set.now }
{
    for fact in set.items() {
        if let Fact::Rec(seen) = fact {
            if marks[seen.stamp as usize] > 1 {
                return Some((seen.log, seen.at));
            }
        }
    }
    None
}

fn first_stamp_twice<A: Allocator + Copy>(
    set: &UnionSet<Fact, A>,
    survey: &Survey,
    marks: &[u8],
) -> Option<(u32, u32)>
    requires ordered { AreOrdered set.now }
    requires apart { conflict TwoRecords set.now ≡ None }
    requires within { AreWithin set.now }
    requires len { length marks.now ≡ STAMPS }
    requires stamps { AreStamps set.now marks.now }
    requires calm { survey.now.crowded ≡ false → IsCalm marks.now }
    ensures { result ≡ conflict StampTwice set.now }
{
    if survey.crowded {
        stamp_twice(set, marks)
    } else {
        None
    }
}

fn first_two_counts<A: Allocator + Copy>(
    _set: &UnionSet<Fact, A>,
    survey: &Survey,
) -> Option<(u32, u32)>
    requires ordered { AreOrdered _set.now }
    requires survey { IsSurvey _set.now survey.now }
    ensures { result ≡ conflict TwoCounts _set.now }
{
    survey.two_counts
}

// Whether an end mark of the log counts at most n.
fn is_past_bound<A: Allocator + Copy>(
    _set: &UnionSet<Fact, A>,
    bounds: &PerLog<Option<u32>>,
    log: u32,
    n: usize,
) -> bool
    requires log { log < LOGS_MAX }
    requires bounds { AreBounds _set.now bounds.now }
    ensures { result ≡ list_any (is_mark_within log n) _set.now }
{
    match bounds[log as usize] {
        None => false,
        Some(count) => count as usize <= n,
    }
}

// Whether some log has a place at or past its least count.
fn is_overrun(survey: &Survey) -> bool
    ensures { result ≡ false → (log : ℕ) → log < LOGS_MAX → IsUnderrun survey.now log }
{
    for log in 0..LOGS_MAX as usize {
        if let Some(count) = survey.bounds[log] {
            if count < survey.tops[log] {
                return true;
            }
        }
    }
    false
}

fn past_count<A: Allocator + Copy>(
    set: &UnionSet<Fact, A>,
    bounds: &PerLog<Option<u32>>,
) -> Option<(u32, u32)>
    requires within { AreWithin set.now }
    requires bounds { AreBounds set.now bounds.now }
    ensures { result ≡ first_place (is_past set.now) set.now }
{
    for fact in set.items() {
        if let Fact::Rec(seen) = fact {
            if is_past_bound(set, bounds, seen.log, seen.at as usize) {
                return Some((seen.log, seen.at));
            }
        }
    }
    None
}

fn first_past_count<A: Allocator + Copy>(
    set: &UnionSet<Fact, A>,
    survey: &Survey,
) -> Option<(u32, u32)>
    requires ordered { AreOrdered set.now }
    requires within { AreWithin set.now }
    requires survey { IsSurvey set.now survey.now }
    ensures { result ≡ conflict PastCount set.now }
{
    if is_overrun(survey) {
        past_count(set, &survey.bounds)
    } else {
        None
    }
}

fn first_stamp_order<A: Allocator + Copy>(
    _set: &UnionSet<Fact, A>,
    survey: &Survey,
) -> Option<(u32, u32)>
    requires ordered { AreOrdered _set.now }
    requires apart { conflict TwoRecords _set.now ≡ None }
    requires survey { IsSurvey _set.now survey.now }
    ensures { result ≡ conflict StampOrder _set.now }
{
    survey.falls
}

fn is_short<A: Allocator + Copy>(set: &UnionSet<Fact, A>, survey: &Survey, log: u32) -> bool
    requires log { log < LOGS_MAX }
    requires survey { IsSurvey set.now survey.now }
    ensures { result ≡ is_waiting set.now log }
{
    !is_past_bound(set, &survey.bounds, log, survey.counts[log as usize])
}

// The least log without its end mark or with fewer records than its count.
fn waiting<A: Allocator + Copy>(set: &UnionSet<Fact, A>, survey: &Survey, logs: u32) -> Option<u32>
    requires logs { logs ≤ LOGS_MAX }
    requires survey { IsSurvey set.now survey.now }
    ensures { result ≡ least_below (is_waiting set.now) logs }
{
    for log in 0..logs {
        if is_short(set, survey, log) {
            return Some(log);
        }
    }
    None
}

fn is_absent<A: Allocator + Copy>(_set: &UnionSet<Fact, A>, marks: &[u8], stamp: u32) -> bool
    requires stamp { stamp < STAMPS }
    requires len { length marks.now ≡ STAMPS }
    requires stamps { AreStamps _set.now marks.now }
    ensures { result ≡ is_missing _set.now stamp }
{
    marks[stamp as usize] == 0
}

// The least stamp below n that no record has.
fn missing<A: Allocator + Copy>(set: &UnionSet<Fact, A>, marks: &[u8], n: usize) -> Option<u32>
    requires within { AreWithin set.now }
    requires len { length marks.now ≡ STAMPS }
    requires stamps { AreStamps set.now marks.now }
    ensures { result ≡ least_below (is_missing set.now) n }
{
    for stamp in 0..STAMPS {
        if n <= stamp as usize {
            return None;
        }
        if is_absent(set, marks, stamp) {
            return Some(stamp);
        }
    }
    if n <= STAMPS as usize {
        None
    } else {
        Some(STAMPS)
    }
}

// The status after conflicts of records at one place and of stamps at two.
fn status_after<A: Allocator + Copy>(
    set: &UnionSet<Fact, A>,
    survey: &Survey,
    marks: &[u8],
    logs: u32,
) -> FactStatus
    requires ordered { AreOrdered set.now }
    requires apart { conflict TwoRecords set.now ≡ None }
    requires stamped { conflict StampTwice set.now ≡ None }
    requires within { AreWithin set.now }
    requires len { length marks.now ≡ STAMPS }
    requires stamps { AreStamps set.now marks.now }
    requires survey { IsSurvey set.now survey.now }
    requires logs { logs ≤ LOGS_MAX }
    ensures { result ≡ fact_status logs set.now }
{
    if let Some((log, at)) = first_two_counts(set, survey) {
        return FactStatus::Conflict(Kind::TwoCounts, log, at);
    }
    if let Some((log, at)) = first_past_count(set, survey) {
        return FactStatus::Conflict(Kind::PastCount, log, at);
    }
    if let Some((log, at)) = first_stamp_order(set, survey) {
        return FactStatus::Conflict(Kind::StampOrder, log, at);
    }
    if let Some(log) = waiting(set, survey, logs) {
        return FactStatus::Waiting(log);
    }
    match missing(set, marks, survey.records) {
        Some(stamp) => FactStatus::Gap(stamp),
        None => FactStatus::Sealed,
    }
}

// The status by the survey and the marks of a walk.
fn status_by<A: Allocator + Copy>(
    set: &UnionSet<Fact, A>,
    survey: &Survey,
    marks: &[u8],
    logs: u32,
) -> FactStatus
    requires ordered { AreOrdered set.now }
    requires within { AreWithin set.now }
    requires len { length marks.now ≡ STAMPS }
    requires stamps { AreStamps set.now marks.now }
    requires calm { survey.now.crowded ≡ false → IsCalm marks.now }
    requires survey { IsSurvey set.now survey.now }
    requires logs { logs ≤ LOGS_MAX }
    ensures { result ≡ fact_status logs set.now }
{
    if let Some((log, at)) = first_two_records(set, survey) {
        return FactStatus::Conflict(Kind::TwoRecords, log, at);
    }
    if let Some((log, at)) = first_stamp_twice(set, survey, marks) {
        return FactStatus::Conflict(Kind::StampTwice, log, at);
    }
    status_after(set, survey, marks, logs)
}

/// The status, and how many records there are. It does not allocate, but takes 256 KiB of the stack, and walks over the facts
/// once, or once more where a stamp stands twice or a record stands past a count.
pub fn status_in<A: Allocator + Copy>(set: &UnionSet<Fact, A>, logs: u32) -> (FactStatus, usize)
    requires ordered { AreOrdered set.now }
    requires within { AreWithin set.now }
    requires logs { logs ≤ LOGS_MAX }
    ensures status { result.0 ≡ fact_status logs set.now }
    ensures records { result.1 ≡ count is_record set.now }
{
    let mut marks = [0u8; STAMPS as usize];
    let survey = survey_of(set, &mut marks);
    (status_by(set, &survey, &marks, logs), survey.records)
}
