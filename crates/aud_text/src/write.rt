//! Writing the lines of facts.

ghost use Rattle.std.specs.Prelude.{◌≡◌, ◌≤◌, Ok, None, IfOk, IfSome, OnOk, FitsSigned, length};
ghost use Rattle.std.specs.Int.{w64};
ghost use Rattle.serde_json.specs.Data.{string, put as with_member};
ghost use Rattle.serde_json.specs.View.{view, members_view};
ghost use Rattle.serde_json.specs.Written.{compact_text};
ghost use Rattle.aud_event.specs.declared.fact.Fact.{Fact as FactOf};
ghost use Rattle.aud_event.specs.Meanings.{PlanOf};
ghost use Rattle.aud_event.specs.Facts.{first_fact_fault};
ghost use Rattle.aud_text.specs.FactText.{fact_read};
ghost use Rattle.aud_json.specs.Judged.{judged};
ghost use Rattle.aud_text.specs.Written.{data_of, answer_data, object_name, small_data, headed, tailed, operated, first_of, with_value, record_members, end_members, AnswerFits, ArgsFit, EventFits, FactFits, IsFactOf};
ghost use Rattle.aud_text.specs.Limits.{longest_line};

use aud_event::{Answer, Args, EndMark, Event, Fact, Op, OpName, OutOfMemory, Plan, Record};
use serde_json::{Map, Value};
use std::alloc::{AllocError, Allocator, Global};

pub(crate) fn name_at<A: Allocator>(plan: &Plan<A>, object: u16) -> &str
    ensures { result.now ≡ object_name plan.now object }
{
    match plan.object(usize::from(object)) {
        Some(decl) => decl.name.as_str(),
        None => "",
    }
}

fn answer_value(alloc: Global, answer: Answer) -> Result<Value, AllocError>
    ensures value { IfOk result (λ v. view v ≡ answer_data answer) }
    ensures fits { AnswerFits answer }
{
    match answer {
        Answer::Done => Value::try_from_str(alloc, "done"),
        Answer::Int(z) => Ok(Value::from(z)),
        Answer::Flag(b) => Ok(Value::from(b)),
        Answer::Empty => Value::try_from_str(alloc, "empty"),
    }
}

fn put_number(
    alloc: Global,
    map: &mut Map<String, Value>,
    key: &str,
    number: u32,
) -> Result<(), AllocError>
    ensures { OnOk result (members_view map.new.entries
        ≡ with_member key.now (small_data number) (members_view map.old.entries)) }
{
    serde_json::put(map, alloc, key, Value::from(number))
}

fn put_text(
    alloc: Global,
    map: &mut Map<String, Value>,
    key: &str,
    text: &str,
) -> Result<(), AllocError>
    ensures { OnOk result (members_view map.new.entries
        ≡ with_member key.now (string text.now) (members_view map.old.entries)) }
{
    let value = Value::try_from_str(alloc, text)?;
    serde_json::put(map, alloc, key, value)
}

fn end_map(alloc: Global, mark: &EndMark) -> Result<Map<String, Value>, AllocError>
    ensures { IfOk result (λ m. members_view m.entries ≡ end_members mark.now) }
{
    let mut map = Map::new(alloc);
    put_number(alloc, &mut map, "log", mark.log)?;
    put_number(alloc, &mut map, "end", mark.count)?;
    Ok(map)
}

/// The value of a pair, where there is one.
fn value_map(alloc: Global, args: Args) -> Result<Map<String, Value>, AllocError>
    ensures members { IfOk result (λ m. members_view m.entries ≡ with_value args) }
    ensures fits { ArgsFit args }
{
    let mut map = Map::new(alloc);
    if let Args::Pair(_, value) = args {
        serde_json::put(&mut map, alloc, "val", Value::from(value))?;
    }
    Ok(map)
}

/// The keys that each record has, and what ends it.
fn base_map(
    alloc: Global,
    r: &Record,
    word: &str,
    args: Args,
) -> Result<Map<String, Value>, AllocError>
    ensures members { IfOk result (λ m. members_view m.entries ≡ headed r.now word.now (tailed r.now (with_value args))) }
    ensures fits { ArgsFit args }
{
    let mut map = value_map(alloc, args)?;
    put_number(alloc, &mut map, "tx", r.tx)?;
    put_number(alloc, &mut map, "stamp", r.stamp)?;
    put_number(alloc, &mut map, "log", r.log)?;
    put_text(alloc, &mut map, "ev", word)?;
    put_number(alloc, &mut map, "at", r.at)?;
    Ok(map)
}

/// The keys that invocations and responses have.
fn operation_map<A: Allocator>(
    alloc: Global,
    plan: &Plan<A>,
    r: &Record,
    word: &str,
    object: u16,
    op: OpName,
    args: Args,
) -> Result<Map<String, Value>, AllocError>
    ensures members { IfOk result (λ m. members_view m.entries
        ≡ headed r.now word.now (operated plan.now object op (tailed r.now (with_value args)))) }
    ensures fits { ArgsFit args }
{
    let mut map = base_map(alloc, r, word, args)?;
    put_text(alloc, &mut map, "op", op.word())?;
    put_text(alloc, &mut map, "ob", name_at(plan, object))?;
    Ok(map)
}

/// The number or the key, which is the first of the arguments.
fn first_of(args: Args) -> Option<i64>
    ensures { result ≡ first_of args }
{
    match args {
        Args::Nothing => None,
        Args::Number(number) => Some(number),
        Args::Pair(key, _) => Some(key),
    }
}

fn invocation_map<A: Allocator>(
    alloc: Global,
    plan: &Plan<A>,
    r: &Record,
    object: u16,
    op: Op,
) -> Result<Map<String, Value>, AllocError>
    ensures members { IfOk result (λ m. members_view m.entries ≡ record_members plan.now r.now (Event.Inv object op)) }
    ensures fits { OnOk result (EventFits (Event.Inv object op)) }
{
    let args = op.args();
    let mut map = operation_map(alloc, plan, r, "inv", object, op.name(), args)?;
    if let Some(first) = first_of(args) {
        serde_json::put(&mut map, alloc, "arg", Value::from(first))?;
    }
    Ok(map)
}

fn response_map<A: Allocator>(
    alloc: Global,
    plan: &Plan<A>,
    r: &Record,
    object: u16,
    op: OpName,
    answer: Answer,
) -> Result<Map<String, Value>, AllocError>
    ensures members { IfOk result (λ m. members_view m.entries ≡ record_members plan.now r.now (Event.Ret object op answer)) }
    ensures fits { OnOk result (EventFits (Event.Ret object op answer)) }
{
    let mut map = operation_map(alloc, plan, r, "ret", object, op, Args::Nothing)?;
    let value = answer_value(alloc, answer)?;
    serde_json::put(&mut map, alloc, "ans", value)?;
    Ok(map)
}

fn record_map<A: Allocator>(
    alloc: Global,
    plan: &Plan<A>,
    r: &Record,
) -> Result<Map<String, Value>, AllocError>
    ensures members { IfOk result (λ m. members_view m.entries ≡ record_members plan.now r.now r.now.event) }
    ensures fits { OnOk result (EventFits r.now.event) }
{
    match r.event {
        Event::Inv(object, op) => invocation_map(alloc, plan, r, object, op),
        Event::Ret(object, op, answer) => response_map(alloc, plan, r, object, op, answer),
        Event::TryC => base_map(alloc, r, "tryc", Args::Nothing),
        Event::TryA => base_map(alloc, r, "trya", Args::Nothing),
        Event::Commit => base_map(alloc, r, "commit", Args::Nothing),
        Event::Abort => base_map(alloc, r, "abort", Args::Nothing),
    }
}

fn value_of<A: Allocator>(alloc: Global, plan: &Plan<A>, fact: &Fact) -> Result<Value, AllocError>
    ensures value { IfOk result (λ v. view v ≡ data_of plan.now fact.now) }
    ensures fits { OnOk result (FactFits fact.now) }
{
    match fact {
        Fact::End(mark) => Ok(Value::Object(end_map(alloc, mark)?)),
        Fact::Rec(r) => Ok(Value::Object(record_map(alloc, plan, r)?)),
    }
}

/// The line of a fact that fits the plan: no white space, keys in byte order, no line feed.
pub fn write_fact<A: Allocator>(
    alloc: Global,
    plan: &Plan<A>,
    fact: &Fact,
) -> Result<Vec<u8>, OutOfMemory>
    requires { first_fact_fault plan.now fact.now ≡ None }
    ensures spelled { IfOk result (λ line. line.items ≡ compact_text (data_of plan.now fact.now)) }
    ensures reads_back { IfOk result (λ line. fact_read plan.now line.items ≡ Ok fact.now) }
{
    let _objects = plan.objects();
    let value = value_of(alloc, plan, fact)?;
    let line = value.to_vec(alloc)?;
    Ok(line)
}

/// The value that is written of a fact is judged as that fact, and its text fits a line, whatever the plan.
pub fn facts_read_back()
    ensures judged { (plan : PlanOf) (f : FactOf) → IsFactOf plan f → judged plan (data_of plan f) ≡ Ok f }
    ensures short { (plan : PlanOf) (f : FactOf) → IsFactOf plan f → length (compact_text (data_of plan f)) ≤ longest_line }
{}
