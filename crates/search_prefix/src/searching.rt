//! The search over one cursor: each good prefix is expanded at most once, and so is each configuration, which is the
//! transactions placed and the states of all objects. Where a silent transaction is good, only its choice is followed.

ghost use Rattle.std.specs.Prelude.{◌≡◌, ◌<◌, Some, None, length, map, IfOk, OnOk, MatchOption, []};
ghost use Rattle.aud_witness.specs.Orders.{IsFull, Opaque};
ghost use Rattle.aud_history.specs.WellFormed.{IsWellFormed};
ghost use Rattle.aud_history.specs.FirstFault.{IsWithinLimits};
ghost use Rattle.aud_order.specs.Shapes.{plan_of, objects_of, history_of};
ghost use Rattle.search_memo.specs.Choices.{AreChoices};
ghost use Rattle.search_prefix.specs.Readiness.{IsReady};
ghost use Rattle.search_prefix.specs.Searches.{Reports, ReportsWith};
ghost use Rattle.aud_order.specs.Cursors.{cursor_back, cursor_with};
ghost use Rattle.search_prefix.specs.Tried.{IsTried, FindsFirstGood, IsNextPlace, ArePassed, IsWitnessOf, ReportsAt};
ghost use Rattle.search_memo.specs.Memos.{Names, states_reached, IsReported, IsFurther, IsStep, IsRefutedAt};
ghost use Rattle.search_memo.specs.Recorders.{HasNote, IsNotedFor, IsReason, AreKept, IsSilentAt, reason_by, IsNotedAfter, HasNoteAfter};
ghost use Rattle.search_prefix.specs.Frames.{IsSought, IsArrived, IsFrameClosed, unnumbered, HasRoomMade};

use crate::outcome::{Outcome, SearchEnd, Searched};
use crate::ready::Ready;
use aud_event::OutOfMemory;
use aud_order::{Cursor, Pushed, Shape};
use aud_witness::{Decision, Prefix};
use base_values::spend;
use search_memo::{
    BOUND, Choice, Memo, Order, Recorder, RefutedBy, Unnoted, Unrecorded, Visibility, choices_of,
};
use std::alloc::Allocator;

/// Goes on by the decision if it is good.
fn try_decision<A: Allocator + Copy>(
    cursor: &mut Cursor<A>,
    decision: Decision,
) -> Result<bool, OutOfMemory>
    ensures { IfOk result (IsTried cursor.old cursor.new decision) }
{
    let pushed = cursor.push(decision)?;
    Ok(pushed.is_good())
}

/// Goes on by the first choice from a place on that is good, and answers its place.
fn try_from<A: Allocator + Copy>(
    cursor: &mut Cursor<A>,
    choices: &[Choice],
    ready: &Ready<A>,
    from: usize,
) -> Result<Option<usize>, OutOfMemory>
    requires choices { AreChoices (history_of cursor.old.shape) choices.now }
    requires same { ready.now.choices ≡ choices.now }
    requires ready { IsReady ready.now cursor.old }
    ensures { IfOk result (FindsFirstGood cursor.old cursor.new choices.now from) }
{
    let mut next = from;
    while let Some(place) = ready.next(next) {
        if try_decision(cursor, choices[place].decision)? {
            return Ok(Some(place));
        }
        next = place + 1;
    }
    Ok(None)
}

/// Notes the cursor's prefix with the decision after it, if that is good: the note is of a prefix of the same configuration.
/// The cursor comes back.
fn pass<N: Copy, R: Recorder<N, A>, A: Allocator + Copy>(
    memo: &mut Memo<N, R, A>,
    cursor: &mut Cursor<A>,
    decision: Decision,
    note: N,
) -> Result<(), OutOfMemory>
    requires shape { memo.old.shape ≡ cursor.old.shape }
    requires alike { IsNotedAfter cursor.old decision (R.noted memo.old.recorder note) }
    ensures noted { OnOk result (HasNoteAfter (R.noted memo.new.recorder) cursor.old decision) }
    ensures stays { OnOk result (cursor.new ≡ cursor.old) }
    ensures reported { OnOk result (IsReported R.grows memo.old memo.new) }
{
    if memo.records_nothing() {
        return Ok(());
    }
    if !try_decision(cursor, decision)? {
        return Ok(());
    }
    memo.note(cursor, RefutedBy::Same(note))?;
    let _ = cursor.pop();
    Ok(())
}

/// Passes over choices that are known to be refuted, from a place on, and answers where the others begin. Those that are good
/// are noted.
fn pass_known<N: Copy, R: Recorder<N, A>, A: Allocator + Copy>(
    memo: &mut Memo<N, R, A>,
    cursor: &mut Cursor<A>,
    choices: &[Choice],
    ready: &Ready<A>,
    here: Frame,
) -> Result<usize, OutOfMemory>
    requires choices { AreChoices (history_of cursor.old.shape) choices.now }
    requires same { ready.now.choices ≡ choices.now }
    requires ready { IsReady ready.now cursor.old }
    requires shape { memo.old.shape ≡ cursor.old.shape }
    requires named { Names memo.old.states here.states (states_reached cursor.old.shape cursor.old.path) }
    ensures passed { IfOk result (ArePassed cursor.old choices.now here.next) }
    ensures kept { IfOk result (AreKept (HasNote (R.noted memo.new.recorder)) cursor.old.shape choices.now cursor.old.path here.next) }
    ensures stays { OnOk result (cursor.new ≡ cursor.old) }
    ensures reported { OnOk result (IsReported R.grows memo.old memo.new) }
{
    let mut from = here.next;
    while let Some(place) = ready.next(from) {
        let choice = &choices[place];
        let Some(note) = memo.knows_after(here.states, choice, cursor) else {
            return Ok(from);
        };
        pass(memo, cursor, choice.decision, note)?;
        from = place + 1;
    }
    Ok(from)
}

/// Takes the last decision back, and reports it.
fn take_back<N: Copy, R: Recorder<N, A>, A: Allocator + Copy>(
    cursor: &mut Cursor<A>,
    memo: &mut Memo<N, R, A>,
) -> Option<Decision>
    ensures last { MatchOption result (cursor.old.path ≡ []) (λ last. cursor.old ≡ cursor_with cursor.new last) }
    ensures back { cursor.new ≡ cursor_back cursor.old }
    ensures memo { memo.new ≡ memo.old }
{
    let last = cursor.prefix().last().copied()?;
    let _ = cursor.pop();
    memo.touch(last);
    Some(last)
}

/// Takes the last decision back, and its choices may be good again.
fn backtrack<N: Copy, R: Recorder<N, A>, A: Allocator + Copy>(
    cursor: &mut Cursor<A>,
    ready: &mut Ready<A>,
    memo: &mut Memo<N, R, A>,
)
    requires { IsReady ready.old cursor.old }
    ensures back { cursor.new ≡ cursor_back cursor.old }
    ensures ready { IsReady ready.new cursor.new }
    ensures choices { ready.new.choices ≡ ready.old.choices }
    ensures memo { memo.new ≡ memo.old }
{
    if let Some(last) = take_back(cursor, memo) {
        ready.backtrack(last, cursor);
    }
}

/// The place of the next choice once this one is refuted. After one of a silent transaction none is left to try.
fn next_place(choices: &[Choice], place: usize) -> usize
    requires { place < length choices.now }
    ensures { IsNextPlace choices.now place result }
{
    match choices[place].visibility {
        Visibility::Silent => choices.len(),
        Visibility::Visible => place + 1,
    }
}

/// The decision of the choice, if it is of a silent transaction.
fn silent_at(choices: &[Choice], place: usize) -> Option<Decision>
    requires { place < length choices.now }
    ensures { IsSilentAt choices.now place result }
{
    match choices[place].visibility {
        Visibility::Silent => Some(choices[place].decision),
        Visibility::Visible => None,
    }
}

/// Why a prefix is refuted, once all its choices are, or once the one of a silent transaction is.
fn reason_of<N>(silent: Option<Decision>) -> RefutedBy<N>
    ensures { result ≡ reason_by silent }
{
    match silent {
        None => RefutedBy::Kids,
        Some(decision) => RefutedBy::Silent(decision),
    }
}

/// Which choice after a prefix is tried next, the number of the states there, if they have one, and the choice of a silent
/// transaction that was followed, if one was.
#[derive(Clone, Copy)]
struct Frame {
    next: usize,
    states: Option<usize>,
    silent: Option<Decision>,
}

impl Frame {
    /// After a prefix that was just expanded.
    fn new(states: Option<usize>) -> Frame
        ensures { result ≡ record { next = 0; states = states; silent = None } }
    {
        Frame {
            next: 0,
            states,
            silent: None,
        }
    }

    /// The frame without the number of the states.
    fn unnumbered(self) -> Frame
        ensures { result ≡ unnumbered self }
    {
        Frame {
            next: self.next,
            states: None,
            silent: self.silent,
        }
    }
}

/// Takes the numbers of all states away.
fn forget_numbers(frames: &mut [Frame])
    ensures { frames.new ≡ map unnumbered frames.old }
{
    for place in 0..frames.len() {
        frames[place] = frames[place].unnumbered();
    }
}

/// Begins the memo anew if it is full. Then the states of no frame have a number.
fn make_room<N: Copy, R: Recorder<N, A>, A: Allocator + Copy>(
    memo: &mut Memo<N, R, A>,
    frames: &mut Vec<Frame, A>,
    here: &mut Frame,
)
    ensures { HasRoomMade memo.old memo.new frames.old.items frames.new.items here.old here.new }
{
    if memo.is_full() {
        memo.begin_anew();
        forget_numbers(frames);
        *here = here.unnumbered();
    }
}

/// Passes over choices that are known to be refuted, and goes on by the first of the others that is good. It answers its place.
fn seek<N: Copy, R: Recorder<N, A>, A: Allocator + Copy>(
    memo: &mut Memo<N, R, A>,
    cursor: &mut Cursor<A>,
    choices: &[Choice],
    ready: &Ready<A>,
    here: Frame,
) -> Result<Option<usize>, OutOfMemory>
    requires choices { AreChoices (history_of cursor.old.shape) choices.now }
    requires same { ready.now.choices ≡ choices.now }
    requires ready { IsReady ready.now cursor.old }
    requires shape { memo.old.shape ≡ cursor.old.shape }
    requires named { Names memo.old.states here.states (states_reached cursor.old.shape cursor.old.path) }
    ensures sought { IfOk result (IsSought (R.noted memo.new.recorder) cursor.old cursor.new choices.now here.next) }
    ensures reported { OnOk result (IsReported R.grows memo.old memo.new) }
{
    let from = pass_known(memo, cursor, choices, ready, here)?;
    try_from(cursor, choices, ready, from)
}

/// What became of a prefix that the search went on to.
#[derive(Drop)]
enum Arrival {
    /// It is known to be refuted, and the search went back.
    Known,
    /// The states there have the number, if they have one.
    Fresh(Option<usize>),
}

/// Says what is known of the cursor's prefix, to which the search just went by the choice, from states with a number.
fn arrive<N: Copy, R: Recorder<N, A>, A: Allocator + Copy>(
    memo: &mut Memo<N, R, A>,
    cursor: &mut Cursor<A>,
    choice: &Choice,
    from: Option<usize>,
) -> Result<Arrival, OutOfMemory>
    requires { IsStep memo.old from choice.now cursor.old }
    ensures arrived { IfOk result (IsArrived (R.noted memo.new.recorder) memo.new.states cursor.old cursor.new) }
    ensures further { OnOk result (IsFurther R.grows memo.old memo.new) }
{
    memo.touch(choice.decision);
    let states = memo.follow(from, choice, cursor);
    let Some(note) = memo.knows(states, cursor) else {
        return Ok(Arrival::Fresh(states));
    };
    memo.note(cursor, RefutedBy::Same(note))?;
    take_back(cursor, memo);
    Ok(Arrival::Known)
}

/// Notes that the cursor's prefix is refuted, and goes back to the prefix before it, whose frame is then the last one. Where no prefix
/// is left to go back to, it answers the note.
fn close<N: Copy, R: Recorder<N, A>, A: Allocator + Copy>(
    memo: &mut Memo<N, R, A>,
    cursor: &mut Cursor<A>,
    ready: &mut Ready<A>,
    frames: &mut Vec<Frame, A>,
    here: &mut Frame,
) -> Result<Option<N>, OutOfMemory>
    requires shape { memo.old.shape ≡ cursor.old.shape }
    requires reason { IsReason (R.noted memo.old.recorder) cursor.old.shape cursor.old.path (reason_by here.old.silent) }
    requires named { Names memo.old.states here.old.states (states_reached cursor.old.shape cursor.old.path) }
    requires refuted { IsRefutedAt cursor.old }
    requires ready { IsReady ready.old cursor.old }
    ensures closed { IfOk result (IsFrameClosed (R.noted memo.new.recorder) cursor.old cursor.new frames.old.items frames.new.items here.new) }
    ensures further { OnOk result (IsFurther R.grows memo.old memo.new) }
    ensures ready { OnOk result (IsReady ready.new cursor.new) }
    ensures choices { ready.new.choices ≡ ready.old.choices }
{
    let note = memo.note(cursor, reason_of(here.silent))?;
    let Some(frame) = frames.pop() else {
        return Ok(Some(note));
    };
    memo.learn(here.states, note, cursor);
    backtrack(cursor, ready, memo);
    *here = frame;
    Ok(None)
}

/// The cursor's prefix, with which a search ends.
fn witness_at<N: Copy, A: Allocator + Copy>(
    alloc: A,
    cursor: &Cursor<A>,
) -> Result<SearchEnd<N, A>, OutOfMemory>
    ensures { IfOk result (IsWitnessOf cursor.now.path) }
{
    let witness = Prefix::copy_of(alloc, cursor.prefix())?;
    Ok(SearchEnd::Witness(witness))
}

/// Searches the prefixes that begin with the cursor's, which was just expanded. The frames are those of the prefixes before the cursor's.
fn search_on<N: Copy, R: Recorder<N, A>, A: Allocator + Copy>(
    alloc: A,
    cursor: &mut Cursor<A>,
    choices: &[Choice],
    budget: Option<u64>,
    memo: &mut Memo<N, R, A>,
    ready: &mut Ready<A>,
    frames: &mut Vec<Frame, A>,
) -> Result<SearchEnd<N, A>, OutOfMemory>
    requires memo { memo.old.shape ≡ cursor.old.shape }
    requires choices { AreChoices (history_of cursor.old.shape) choices.now }
    requires unfull { IsFull (history_of cursor.old.shape) cursor.old.path → ⊥ }
    requires fine { IsWellFormed (history_of cursor.old.shape) }
    requires within { IsWithinLimits (plan_of cursor.old.shape) (history_of cursor.old.shape) }
    requires same { ready.old.choices ≡ choices.now }
    requires ready { IsReady ready.old cursor.old }
    requires first { frames.old.items ≡ [] }
    ensures reported { IfOk result (ReportsAt cursor.old (R.noted memo.new.recorder) budget) }
    ensures shape { OnOk result (memo.new.shape ≡ memo.old.shape) }
{
    let mut left = budget;
    let mut here = Frame::new(None);
    let _good = cursor.prefix();
    'search: loop {
        let Some(place) = seek(memo, cursor, choices, ready, here)? else {
            match close(memo, cursor, ready, frames, &mut here)? {
                Some(note) => return Ok(SearchEnd::Refuted(note)),
                None => continue,
            }
        };
        if cursor.full() {
            return witness_at(alloc, cursor);
        }
        here.next = next_place(choices, place);
        here.silent = silent_at(choices, place);
        let Arrival::Fresh(states) = arrive(memo, cursor, &choices[place], here.states)? else {
            continue;
        };
        let Some(rest) = spend(left) else {
            return Ok(SearchEnd::Spent);
        };
        left = rest;
        ready.go_on(choices[place].decision, cursor);
        frames.push(here)?;
        here = Frame::new(states);
        make_room(memo, frames, &mut here);
    }
}

/// Searches the prefixes that begin with the cursor's, which is expanded first. What is refuted is remembered.
fn search_from<'a, N: Copy, R: Recorder<N, A>, A: Allocator + Copy>(
    alloc: A,
    shape: &'a Shape<A>,
    cursor: &mut Cursor<'a, A>,
    choices: &[Choice],
    budget: Option<u64>,
    memo: &mut Memo<'a, N, R, A>,
) -> Result<SearchEnd<N, A>, OutOfMemory>
    requires memo { memo.old.shape ≡ shape.now }
    requires shape { cursor.old.shape ≡ shape.now }
    requires choices { AreChoices (history_of cursor.old.shape) choices.now }
    requires unfull { IsFull (history_of cursor.old.shape) cursor.old.path → ⊥ }
    requires fine { IsWellFormed (history_of cursor.old.shape) }
    requires within { IsWithinLimits (plan_of cursor.old.shape) (history_of cursor.old.shape) }
    ensures reported { IfOk result (ReportsAt cursor.old (R.noted memo.new.recorder) budget) }
    ensures shape { OnOk result (memo.new.shape ≡ memo.old.shape) }
{
    let mut ready = Ready::at(alloc, shape, choices, cursor)?;
    let mut frames = Vec::new(alloc);
    search_on(
        alloc,
        cursor,
        choices,
        budget,
        memo,
        &mut ready,
        &mut frames,
    )
}

/// Searches the prefixes that begin with the cursor's, with a budget or without, over what is remembered of the shape. After each prefix
/// it tries transactions in the order.
fn search_under<'a, R: Recorder<Unnoted, A>, A: Allocator + Copy>(
    alloc: A,
    shape: &'a Shape<A>,
    order: Order,
    cursor: &mut Cursor<'a, A>,
    budget: Option<u64>,
    memo: &mut Memo<'a, Unnoted, R, A>,
) -> Result<Outcome<A>, OutOfMemory>
    requires memo { memo.old.shape ≡ shape.now }
    requires shape { cursor.old.shape ≡ shape.now }
    ensures reported { IfOk result (Reports (objects_of shape.now) (history_of shape.now) cursor.old.path budget) }
    ensures shape { OnOk result (memo.new.shape ≡ memo.old.shape) }
{
    let _good = cursor.prefix();
    if cursor.full() {
        let witness = Prefix::copy_of(alloc, cursor.prefix())?;
        return Ok(Outcome::Witness(witness));
    }
    let Some(left) = spend(budget) else {
        return Ok(Outcome::Spent);
    };
    let _sound = shape.history();
    let _within = shape.plan();
    let choices = choices_of(alloc, shape, order)?;
    let ended = search_from(alloc, shape, cursor, &choices, left, memo)?;
    Ok(ended.outcome())
}

/// Searches the prefixes that begin with the prefix, with a budget or without, over what is remembered of the shape, as
/// `search_under` says it.
pub fn search<'a, R: Recorder<Unnoted, A>, A: Allocator + Copy>(
    alloc: A,
    shape: &'a Shape<A>,
    order: Order,
    prefix: &[Decision],
    budget: Option<u64>,
    memo: &mut Memo<'a, Unnoted, R, A>,
) -> Result<Outcome<A>, OutOfMemory>
    requires memo { memo.old.shape ≡ shape.now }
    ensures reported { IfOk result (Reports (objects_of shape.now) (history_of shape.now) prefix.now budget) }
    ensures shape { OnOk result (memo.new.shape ≡ memo.old.shape) }
{
    let Some(mut cursor) = Cursor::after(alloc, shape, prefix)? else {
        return Ok(Outcome::Refuted);
    };
    search_under(alloc, shape, order, &mut cursor, budget, memo)
}

/// Whether some prefix that begins with the prefix shows the history, as far as the budget goes: exactly so many prefixes
/// are expanded before it is reported as spent. A prefix is expanded when the choices after it are tried for the first time;
/// one that is not good is refuted, and a full one is the witness, without an expansion.
pub fn explore<A: Allocator + Copy>(
    alloc: A,
    shape: &Shape<A>,
    prefix: &Prefix<A>,
    budget: u64,
) -> Result<Outcome<A>, OutOfMemory>
    ensures { IfOk result (Reports (objects_of shape.now) (history_of shape.now) prefix.now (Some budget)) }
{
    let mut memo = Memo::new(alloc, shape, Unrecorded, BOUND);
    search(
        alloc,
        shape,
        Order::Last(0),
        prefix.decisions(),
        Some(budget),
        &mut memo,
    )
}

/// Searches all prefixes, of which the empty one is not full. It is expanded first.
fn search_all<'a, N: Copy, R: Recorder<N, A>, A: Allocator + Copy>(
    alloc: A,
    shape: &'a Shape<A>,
    cursor: &mut Cursor<'a, A>,
    recorder: R,
) -> Result<Searched<R, N, A>, OutOfMemory>
    requires own { R.is_for recorder shape.now }
    requires root { cursor.old ≡ record { shape = shape.now; path = [] } }
    requires unfull { IsFull (history_of cursor.old.shape) cursor.old.path → ⊥ }
    ensures { IfOk result (ReportsWith (objects_of shape.now) (history_of shape.now) (IsNotedFor R.is_for R.noted shape.now)) }
{
    let _sound = shape.history();
    let _within = shape.plan();
    let choices = choices_of(alloc, shape, Order::Last(0))?;
    let mut memo = Memo::new(alloc, shape, recorder, BOUND);
    let ended = search_from(alloc, shape, cursor, &choices, None, &mut memo)?;
    let recorder = memo.into_recorder();
    match ended {
        SearchEnd::Refuted(note) => Ok(Searched::NotOpaque(recorder, note)),
        SearchEnd::Witness(witness) => Ok(Searched::Opaque(witness)),
        // Without a budget none is spent.
        SearchEnd::Spent => unreachable!(),
    }
}

/// Searches all prefixes, where the cursor's is the empty one.
fn search_at_root<'a, N: Copy, R: Recorder<N, A>, A: Allocator + Copy>(
    alloc: A,
    shape: &'a Shape<A>,
    cursor: &mut Cursor<'a, A>,
    recorder: R,
) -> Result<Searched<R, N, A>, OutOfMemory>
    requires own { R.is_for recorder shape.now }
    requires root { cursor.old ≡ record { shape = shape.now; path = [] } }
    ensures { IfOk result (ReportsWith (objects_of shape.now) (history_of shape.now) (IsNotedFor R.is_for R.noted shape.now)) }
{
    let _good = cursor.prefix();
    if cursor.full() {
        let witness = Prefix::copy_of(alloc, cursor.prefix())?;
        return Ok(Searched::Opaque(witness));
    }
    search_all(alloc, shape, cursor, recorder)
}

/// Whether the history is opaque, as `decide` says, over a recorder that hears of each good prefix that is refuted, with the reason.
/// It is handed back with its note of the empty prefix.
pub fn search_with<N: Copy, R: Recorder<N, A>, A: Allocator + Copy>(
    alloc: A,
    shape: &Shape<A>,
    recorder: R,
) -> Result<Searched<R, N, A>, OutOfMemory>
    requires { R.is_for recorder shape.now }
    ensures { IfOk result (ReportsWith (objects_of shape.now) (history_of shape.now) (IsNotedFor R.is_for R.noted shape.now)) }
{
    let mut cursor = Cursor::root(alloc, shape)?;
    search_at_root(alloc, shape, &mut cursor, recorder)
}
