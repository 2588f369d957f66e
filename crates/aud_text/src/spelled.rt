//! Reading a line that is spelled as `write_fact` spells it, with no JSON value in between.
//! What stands at a place is guessed from its bytes, and then looked for as it is written.

ghost use Rattle.std.specs.Prelude.{◌≡◌, ◌≢◌, ◌++◌, ℕ, List, Ok, Some, IfSome, FitsSigned, MatchOption, codes, decimal};
ghost use Rattle.std.specs.Int.{w64};
ghost use Rattle.std.specs.Fmt.{signed_decimal};
ghost use Rattle.aud_event.specs.Meanings.{PlanOf};
ghost use Rattle.aud_event.specs.Objects.{name_of, args_of, word_of_op};
ghost use Rattle.aud_text.specs.FactText.{fact_read};
ghost use Rattle.aud_text.specs.Written.{first_of, object_name, AnswerFits, ArgsFit, EventFits, FactFits};
ghost use Rattle.aud_text.specs.Spelled.{place_text, log_text, use_text, tail_text, end_text, argument_text, answer_text, end_word, mark_text, record_text, spelled_text};

use crate::write::name_at;
use aud_event::{Answer, Args, EndMark, Event, Fact, Op, OpName, Plan, Record};
use std::alloc::Allocator;

/// What stands after the text, where the line begins with it; else nothing. It does not allocate.
pub fn after<'l>(line: &'l [u8], text: &str) -> Option<&'l [u8]>
    ensures { MatchOption result ((rest : List ℕ) → line.now ≢ text.now ++ rest) (λ rest. line.now ≡ text.now ++ rest.now) }
{
    line.strip_prefix(text.as_bytes())
}

/// The bytes before the next quotation mark.
fn guess_word(line: &[u8]) -> Option<&str> {
    let end = line.iter().position(|b| *b == b'"')?;
    std::str::from_utf8(&line[..end]).ok()
}

/// The number that the leading digits make, or another where they make none of u64.
fn guess_number(line: &[u8]) -> u64 {
    let mut number = 0u64;
    for byte in line {
        if !byte.is_ascii_digit() {
            break;
        }
        number = number
            .wrapping_mul(10)
            .wrapping_add(u64::from(byte.wrapping_sub(b'0')));
    }
    number
}

fn small_at(line: &[u8]) -> Option<(u32, &[u8])>
    ensures { IfSome result (λ r. line.now ≡ decimal r.0 ++ r.1.now) }
{
    let number = u32::try_from(guess_number(line)).ok()?;
    let rest = after(line, itoa::Buffer::new().format(number))?;
    Some((number, rest))
}

fn whole_at(line: &[u8]) -> Option<(i64, &[u8])>
    ensures spelled { IfSome result (λ r. line.now ≡ signed_decimal r.0 ++ r.1.now) }
    ensures fits { IfSome result (λ r. FitsSigned w64 r.0) }
{
    let number = match after(line, "-") {
        Some(digits) => i64::try_from(guess_number(digits)).ok()?.wrapping_neg(),
        None => i64::try_from(guess_number(line)).ok()?,
    };
    let rest = after(line, itoa::Buffer::new().format(number))?;
    Some((number, rest))
}

fn answer_at(line: &[u8]) -> Option<(Answer, &[u8])>
    ensures spelled { IfSome result (λ r. line.now ≡ answer_text r.0 ++ r.1.now) }
    ensures fits { IfSome result (λ r. AnswerFits r.0) }
{
    if let Some(rest) = after(line, "\"done\"") {
        return Some((Answer::Done, rest));
    }
    if let Some(rest) = after(line, "true") {
        return Some((Answer::Flag(true), rest));
    }
    if let Some(rest) = after(line, "false") {
        return Some((Answer::Flag(false), rest));
    }
    if let Some(rest) = after(line, "\"empty\"") {
        return Some((Answer::Empty, rest));
    }
    let (number, rest) = whole_at(line)?;
    Some((Answer::Int(number), rest))
}

/// The place in the log, before the event's word.
fn place_at(line: &[u8]) -> Option<(u32, &[u8])>
    ensures { IfSome result (λ r. line.now ≡ place_text r.0 r.1.now) }
{
    let digits = after(line, "\"at\":")?;
    let (place, rest) = small_at(digits)?;
    let rest = after(rest, ",\"ev\":\"")?;
    Some((place, rest))
}

/// The log, after the event's word.
fn log_at<'l>(line: &'l [u8], word: &str) -> Option<(u32, &'l [u8])>
    ensures { IfSome result (λ r. line.now ≡ log_text word.now r.0 r.1.now) }
{
    let rest = after(line, word)?;
    let digits = after(rest, "\",\"log\":")?;
    small_at(digits)
}

/// An operation on an object.
fn use_at<'l, A: Allocator>(plan: &Plan<A>, line: &'l [u8]) -> Option<(u16, OpName, &'l [u8])>
    ensures { IfSome result (λ r. line.now ≡ use_text (object_name plan.now r.0) (word_of_op r.1) r.2.now) }
{
    let name = after(line, ",\"ob\":\"")?;
    let object = plan.number(guess_word(name)?)?;
    let rest = after(name, name_at(plan, object))?;
    let word = after(rest, "\",\"op\":\"")?;
    let op = OpName::from_word(guess_word(word)?)?;
    let rest = after(word, op.word())?;
    let rest = after(rest, "\"")?;
    Some((object, op, rest))
}

/// The stamp and the transaction.
fn tail_at(line: &[u8]) -> Option<(u32, u32, &[u8])>
    ensures { IfSome result (λ r. line.now ≡ tail_text r.0 r.1 r.2.now) }
{
    let digits = after(line, ",\"stamp\":")?;
    let (stamp, rest) = small_at(digits)?;
    let digits = after(rest, ",\"tx\":")?;
    let (tx, rest) = small_at(digits)?;
    Some((stamp, tx, rest))
}

/// The end of the line.
fn end_at(line: &[u8]) -> Option<()>
    ensures { IfSome result (λ _. line.now ≡ codes "}") }
{
    if after(line, "}")?.is_empty() {
        Some(())
    } else {
        None
    }
}

/// The value of a pair, which ends the line.
fn value_at(line: &[u8]) -> Option<i64>
    ensures spelled { IfSome result (λ v. line.now ≡ codes ",\"val\":" ++ (signed_decimal v ++ codes "}")) }
    ensures fits { IfSome result (λ v. FitsSigned w64 v) }
{
    let digits = after(line, ",\"val\":")?;
    let (value, rest) = whole_at(digits)?;
    let _end = end_at(rest)?;
    Some(value)
}

/// The arguments of which the first is this number, by what ends the line.
fn args_at(first: i64, line: &[u8]) -> Option<Args>
    ensures spelled { IfSome result (λ a. line.now ≡ end_text a) }
    ensures first { IfSome result (λ a. first_of a ≡ Some first) }
    ensures fits { FitsSigned w64 first → IfSome result (λ a. ArgsFit a) }
{
    if end_at(line).is_some() {
        return Some(Args::Number(first));
    }
    let value = value_at(line)?;
    Some(Args::Pair(first, value))
}

/// The operation of a name with these arguments.
fn op_read(name: OpName, args: Args) -> Option<Op>
    ensures name { IfSome result (λ o. name_of o ≡ name) }
    ensures args { IfSome result (λ o. args_of o ≡ args) }
{
    name.with(args)
}

/// An invocation with an argument.
fn argued<A: Allocator>(plan: &Plan<A>, line: &[u8]) -> Option<Record>
    ensures spelled { IfSome result (λ r. line.now ≡ record_text plan.now r r.event) }
    ensures fits { IfSome result (λ r. EventFits r.event) }
{
    let digits = after(line, "{\"arg\":")?;
    let (first, rest) = whole_at(digits)?;
    let (at, rest) = place_at(after(rest, ",")?)?;
    let (log, rest) = log_at(rest, "inv")?;
    let (object, name, rest) = use_at(plan, rest)?;
    let (stamp, tx, rest) = tail_at(rest)?;
    let args = args_at(first, rest)?;
    let op = op_read(name, args)?;
    Some(Record {
        log,
        at,
        stamp,
        tx,
        event: Event::Inv(object, op),
    })
}

/// An invocation without an argument.
fn asked<A: Allocator>(plan: &Plan<A>, line: &[u8]) -> Option<Record>
    ensures spelled { IfSome result (λ r. line.now ≡ record_text plan.now r r.event) }
    ensures fits { IfSome result (λ r. EventFits r.event) }
{
    let (at, rest) = place_at(after(line, "{")?)?;
    let (log, rest) = log_at(rest, "inv")?;
    let (object, name, rest) = use_at(plan, rest)?;
    let (stamp, tx, rest) = tail_at(rest)?;
    let _end = end_at(rest)?;
    let op = op_read(name, Args::Nothing)?;
    Some(Record {
        log,
        at,
        stamp,
        tx,
        event: Event::Inv(object, op),
    })
}

/// A response.
fn answered<A: Allocator>(plan: &Plan<A>, line: &[u8]) -> Option<Record>
    ensures spelled { IfSome result (λ r. line.now ≡ record_text plan.now r r.event) }
    ensures fits { IfSome result (λ r. EventFits r.event) }
{
    let answer = after(line, "{\"ans\":")?;
    let (answer, rest) = answer_at(answer)?;
    let (at, rest) = place_at(after(rest, ",")?)?;
    let (log, rest) = log_at(rest, "ret")?;
    let (object, name, rest) = use_at(plan, rest)?;
    let (stamp, tx, rest) = tail_at(rest)?;
    let _end = end_at(rest)?;
    Some(Record {
        log,
        at,
        stamp,
        tx,
        event: Event::Ret(object, name, answer),
    })
}

fn guess_end(line: &[u8]) -> Option<Event> {
    match guess_word(line)? {
        "tryc" => Some(Event::TryC),
        "trya" => Some(Event::TryA),
        "commit" => Some(Event::Commit),
        "abort" => Some(Event::Abort),
        _ => None,
    }
}

/// The word of an event that has no object.
fn end_word(event: Event) -> Option<&'static str>
    ensures { IfSome result (λ w. end_word event ≡ Some w.now) }
{
    match event {
        Event::TryC => Some("tryc"),
        Event::TryA => Some("trya"),
        Event::Commit => Some("commit"),
        Event::Abort => Some("abort"),
        Event::Inv(_, _) | Event::Ret(_, _, _) => None,
    }
}

/// The event of a transaction's end, or of its being asked for.
fn ended(line: &[u8]) -> Option<Record>
    ensures spelled { IfSome result (λ r. (plan : PlanOf) → line.now ≡ record_text plan r r.event) }
    ensures fits { IfSome result (λ r. EventFits r.event) }
{
    let (at, rest) = place_at(after(line, "{")?)?;
    let event = guess_end(rest)?;
    let (log, rest) = log_at(rest, end_word(event)?)?;
    let (stamp, tx, rest) = tail_at(rest)?;
    let _end = end_at(rest)?;
    Some(Record {
        log,
        at,
        stamp,
        tx,
        event,
    })
}

fn end_mark(line: &[u8]) -> Option<EndMark>
    ensures { IfSome result (λ m. line.now ≡ mark_text m) }
{
    let (count, rest) = small_at(after(line, "{\"end\":")?)?;
    let (log, rest) = small_at(after(rest, ",\"log\":")?)?;
    if after(rest, "}")?.is_empty() {
        Some(EndMark { log, count })
    } else {
        None
    }
}

fn record_in<A: Allocator>(plan: &Plan<A>, line: &[u8]) -> Option<Record>
    ensures spelled { IfSome result (λ r. line.now ≡ record_text plan.now r r.event) }
    ensures fits { IfSome result (λ r. EventFits r.event) }
{
    if let Some(record) = argued(plan, line) {
        return Some(record);
    }
    if let Some(record) = answered(plan, line) {
        return Some(record);
    }
    if let Some(record) = asked(plan, line) {
        return Some(record);
    }
    ended(line)
}

fn fact_in<A: Allocator>(plan: &Plan<A>, line: &[u8]) -> Option<Fact>
    ensures spelled { IfSome result (λ f. line.now ≡ spelled_text plan.now f) }
    ensures fits { IfSome result (λ f. FactFits f) }
{
    match record_in(plan, line) {
        Some(record) => Some(Fact::Rec(record)),
        None => Some(Fact::End(end_mark(line)?)),
    }
}

/// The fact of a line, if the line is the one that is written for it and the fact fits the plan.
pub(crate) fn fact_spelled<A: Allocator>(plan: &Plan<A>, line: &[u8]) -> Option<Fact>
    ensures { IfSome result (λ f. fact_read plan.now line.now ≡ Ok f) }
{
    let _objects = plan.objects();
    let fact = fact_in(plan, line)?;
    let Ok(_text) = simdutf8::compat::from_utf8(line) else {
        return None;
    };
    match fact.check(plan) {
        Ok(()) => Some(fact),
        Err(_) => None,
    }
}
