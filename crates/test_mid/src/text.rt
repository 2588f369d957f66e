//! Texts as values, which no run of the program shows: plans, facts and orders that are read and written, by the examples of docs/FORMAT.md.
//! What each text that is refused deserves `tests/texts` asks the program.

use aud_event::{
    Answer, EndMark, Event, Fact, FactFault, ObjKind, Op, OpName, Plan, PlanFault, Record,
};
use aud_text::{
    TextFault, count_lines, first_line, has_only_allowed, has_required, json_in, next_filled,
    read_fact, read_order, read_plan, write_fact, write_order,
};
use aud_witness::{Decision, Fate};
use std::alloc::Global;
use test_worked::TORN_READ_THEN_ABORT;

/// One log, and an object of each kind.
const FOUR_KINDS: &str = r#"{"format":1,"logs":1,"objects":4}
{"kind":"register","name":"x","open":-5}
{"kind":"counter","name":"c","open":7}
{"kind":"set","name":"s"}
{"kind":"queue","name":"q"}
"#;

/// Two logs, three objects, and an end mark.
const THREE_OBJECTS: &str = r#"{"format":1,"logs":2,"objects":3}
{"kind":"register","name":"x","open":0}
{"kind":"counter","name":"c","open":-7}
{"kind":"queue","name":"jobs"}
{"end":0,"log":0}
"#;

/// A text, how many bytes its plan takes with the line feed of the last line, and how many logs that has.
static PLANS: [(&str, usize, u32); 5] = [
    (THREE_OBJECTS, 145, 2),
    ("{\"format\":1,\"logs\":1,\"objects\":0}", 33, 1),
    ("{\"format\":1,\"logs\":1,\"objects\":0}\n\n{}", 34, 1),
    ("\n{\"format\":1,\"logs\":1,\"objects\":0}\r\n{}", 36, 1),
    (
        "{\"format\":1,\"logs\":1,\"objects\":1}\n{\"kind\":\"counter\",\"name\":\"c\",\"open\":0}\n",
        73,
        1,
    ),
];

/// How many bytes the plan of the text takes, and how many logs it has.
fn plan_in(alloc: Global, text: &str) -> Result<(usize, u32), TextFault> {
    match read_plan(alloc, text.as_bytes()) {
        Ok((plan, used)) => Ok((used, plan.logs())),
        Err(refused) => Err(refused.fault),
    }
}

#[test]
fn plans_take_their_lines(rt: HostRuntime) {
    for (text, bytes, logs) in &PLANS {
        assert!(rt;
            plan_in(rt.alloc(), text) == Ok((*bytes, *logs)),
            "of {text}"
        );
    }
}

/// The number, the kind and the opening of an object, if there is one.
type Found = Option<(u16, ObjKind, i64)>;

/// A text, a name, and what its plan has by the name.
static OBJECTS: [(&str, &str, Found); 8] = [
    (FOUR_KINDS, "x", Some((0, ObjKind::Register, -5))),
    (FOUR_KINDS, "c", Some((1, ObjKind::Counter, 7))),
    (FOUR_KINDS, "s", Some((2, ObjKind::SetOf, 0))),
    (FOUR_KINDS, "q", Some((3, ObjKind::Queue, 0))),
    (THREE_OBJECTS, "jobs", Some((2, ObjKind::Queue, 0))),
    (TORN_READ_THEN_ABORT, "x", Some((0, ObjKind::Register, 0))),
    (TORN_READ_THEN_ABORT, "y", Some((1, ObjKind::Register, 0))),
    (TORN_READ_THEN_ABORT, "z", None),
];

/// What the plan has by the name.
fn object_of(plan: &Plan, name: &str) -> Found {
    let number = plan.number(name)?;
    let object = plan.object(usize::from(number))?;
    Some((number, object.kind, object.opening))
}

/// What the plan of the text has by the name.
fn object_in(alloc: Global, text: &str, name: &str) -> Result<Found, TextFault> {
    match read_plan(alloc, text.as_bytes()) {
        Ok((plan, _used)) => Ok(object_of(&plan, name)),
        Err(refused) => Err(refused.fault),
    }
}

#[test]
fn plans_have_their_objects(rt: HostRuntime) {
    for (text, name, wanted) in &OBJECTS {
        assert!(rt;
            object_in(rt.alloc(), text, name) == Ok(*wanted),
            "{name} of {text}"
        );
    }
}

/// The record of a transaction in log 0: its place, its stamp, the transaction, and the event.
macro_rules! record {
    ($at:expr, $stamp:expr, $tx:expr, $event:expr) => {
        Fact::Rec(Record {
            log: 0,
            at: $at,
            stamp: $stamp,
            tx: $tx,
            event: $event,
        })
    };
}

/// Facts, each as it is spelled, with a space after it.
static FACTS: [(Fact, &str); 20] = [
    (
        record!(0, 0, 1, Event::Inv(0, Op::Write(1))),
        r#"{"arg":1,"at":0,"ev":"inv","log":0,"ob":"x","op":"write","stamp":0,"tx":1} "#,
    ),
    (
        record!(1, 1, 1, Event::Ret(0, OpName::Write, Answer::Done)),
        r#"{"ans":"done","at":1,"ev":"ret","log":0,"ob":"x","op":"write","stamp":1,"tx":1} "#,
    ),
    (
        record!(2, 2, 1, Event::TryC),
        r#"{"at":2,"ev":"tryc","log":0,"stamp":2,"tx":1} "#,
    ),
    (
        record!(3, 3, 1, Event::Commit),
        r#"{"at":3,"ev":"commit","log":0,"stamp":3,"tx":1} "#,
    ),
    (
        record!(4, 4, 2, Event::Inv(0, Op::Read)),
        r#"{"at":4,"ev":"inv","log":0,"ob":"x","op":"read","stamp":4,"tx":2} "#,
    ),
    (
        record!(5, 5, 2, Event::Ret(0, OpName::Read, Answer::Int(1))),
        r#"{"ans":1,"at":5,"ev":"ret","log":0,"ob":"x","op":"read","stamp":5,"tx":2} "#,
    ),
    (
        record!(6, 6, 2, Event::TryC),
        r#"{"at":6,"ev":"tryc","log":0,"stamp":6,"tx":2} "#,
    ),
    (
        record!(7, 7, 2, Event::Commit),
        r#"{"at":7,"ev":"commit","log":0,"stamp":7,"tx":2} "#,
    ),
    (
        Fact::End(EndMark { log: 0, count: 8 }),
        r#"{"end":8,"log":0} "#,
    ),
    (
        record!(0, 0, 3, Event::Inv(3, Op::Enq(-1))),
        r#"{"arg":-1,"at":0,"ev":"inv","log":0,"ob":"q","op":"enq","stamp":0,"tx":3} "#,
    ),
    (
        record!(1, 1, 3, Event::Ret(2, OpName::Remove, Answer::Flag(true))),
        r#"{"ans":true,"at":1,"ev":"ret","log":0,"ob":"s","op":"remove","stamp":1,"tx":3} "#,
    ),
    (
        record!(2, 2, 3, Event::Inv(1, Op::Dec)),
        r#"{"at":2,"ev":"inv","log":0,"ob":"c","op":"dec","stamp":2,"tx":3} "#,
    ),
    (
        record!(3, 3, 3, Event::TryA),
        r#"{"at":3,"ev":"trya","log":0,"stamp":3,"tx":3} "#,
    ),
    (
        record!(4, 4, 3, Event::Abort),
        r#"{"at":4,"ev":"abort","log":0,"stamp":4,"tx":3} "#,
    ),
    (
        record!(3, 9, 2, Event::Inv(1, Op::Inc)),
        r#"{"at":3,"ev":"inv","log":0,"ob":"c","op":"inc","stamp":9,"tx":2} "#,
    ),
    (
        record!(3, 9, 2, Event::Inv(2, Op::Add(-4))),
        r#"{"arg":-4,"at":3,"ev":"inv","log":0,"ob":"s","op":"add","stamp":9,"tx":2} "#,
    ),
    (
        record!(3, 9, 2, Event::Ret(3, OpName::Deq, Answer::Empty)),
        r#"{"ans":"empty","at":3,"ev":"ret","log":0,"ob":"q","op":"deq","stamp":9,"tx":2} "#,
    ),
    (
        record!(
            3,
            9,
            2,
            Event::Ret(2, OpName::Contains, Answer::Flag(false))
        ),
        r#"{"ans":false,"at":3,"ev":"ret","log":0,"ob":"s","op":"contains","stamp":9,"tx":2} "#,
    ),
    (
        record!(3, 9, 2, Event::Ret(1, OpName::Get, Answer::Int(7))),
        r#"{"ans":7,"at":3,"ev":"ret","log":0,"ob":"c","op":"get","stamp":9,"tx":2} "#,
    ),
    (
        record!(3, 9, 2, Event::Abort),
        r#"{"at":3,"ev":"abort","log":0,"stamp":9,"tx":2} "#,
    ),
];

/// Whether the fact fits the plan, and is written as the line.
fn is_written(alloc: Global, plan: &Plan, fact: &Fact, line: &[u8]) -> bool {
    match fact.check(plan) {
        Ok(()) => matches!(write_fact(alloc, plan, fact), Ok(text) if text.as_slice() == line),
        Err(_) => false,
    }
}

/// Whether the fact is written as the line without its space, and read from it, and again with its space, which needs a JSON value.
fn stands_for(alloc: Global, plan: &Plan, fact: &Fact, spaced: &str) -> bool {
    let Some((_space, line)) = spaced.as_bytes().split_last() else {
        return false;
    };
    is_written(alloc, plan, fact, line)
        && read_fact(alloc, plan, line) == Ok(*fact)
        && read_fact(alloc, plan, spaced.as_bytes()) == Ok(*fact)
}

#[test]
fn facts_are_written_and_read(rt: HostRuntime) {
    let (plan, _used) = read_plan(rt.alloc(), FOUR_KINDS.as_bytes()).expect(&rt, "a plan");
    for (fact, spaced) in &FACTS {
        assert!(rt; stands_for(rt.alloc(), &plan, fact, spaced), "of {spaced}");
    }
    let twice = br#"{"end":9999,"end":3,"log":0}"#;
    let mark = Fact::End(EndMark { log: 0, count: 3 });
    assert!(rt; read_fact(rt.alloc(), &plan, twice.as_slice()) == Ok(mark));
    assert!(rt; read_fact(rt.alloc(), &plan, b"").err() == Some(TextFault::NotJson));
}

macro_rules! c {
    ($tx:expr) => {
        Decision {
            tx: $tx,
            fate: Fate::C,
        }
    };
}

macro_rules! a {
    ($tx:expr) => {
        Decision {
            tx: $tx,
            fate: Fate::A,
        }
    };
}

/// Orders, each as it is spelled.
static ORDERS: [(&[Decision], &str); 6] = [
    (&[], "none"),
    (&[c!(1), a!(2)], "1c 2a"),
    (&[c!(1024), a!(4095)], "1024c 4095a"),
    (&[a!(0)], "0a"),
    (&[c!(5), a!(5)], "5c 5a"),
    (&[a!(1023), a!(1023)], "1023a 1023a"),
];

/// Whether the decisions are read from the text, and written as it.
fn are_spelled(alloc: Global, decisions: &[Decision], text: &str) -> bool {
    let Ok(order) = read_order(alloc, text.as_bytes()) else {
        return false;
    };
    let Ok(written) = write_order(alloc, &order) else {
        return false;
    };
    order.decisions() == decisions && written.as_slice() == text.as_bytes()
}

#[test]
fn orders_are_written_and_read(rt: HostRuntime) {
    for (decisions, text) in &ORDERS {
        assert!(rt; are_spelled(rt.alloc(), decisions, text), "of {text}");
    }
}

/// Whether the first line of one text, and the one line of another that is not empty, are taken off it.
fn lines_are_taken() -> bool {
    match (first_line(b"ab\n\ncd"), next_filled(b"\ncd", 2)) {
        (Some(first), Some(filled)) => {
            first.line == b"ab".as_slice()
                && first.rest == b"\ncd".as_slice()
                && filled.number == 3
                && filled.line == b"cd".as_slice()
                && next_filled(filled.rest, 4).is_none()
        }
        _ => false,
    }
}

#[test]
fn lines_of_a_text(rt: HostRuntime) {
    assert!(rt; count_lines(b"ab\n\ncd") == 3);
    assert!(rt; count_lines(b"ab\n\ncd\n") == 3);
    assert!(rt; count_lines(b"") == 0);
    assert!(rt; first_line(b"").is_none());
    assert!(rt; lines_are_taken());
}

/// An object with the keys `a` and `b`.
const TWO_KEYS: &[u8; 13] = br#"{"a":1,"b":2}"#;

/// Whether it has all keys of two lists, and then whether it has no others than those of two lists.
fn has_its_keys(alloc: Global) -> Result<[bool; 4], TextFault> {
    let value = json_in(alloc, TWO_KEYS, 13)?;
    let Some(members) = value.as_object() else {
        return Ok([false; 4]);
    };
    Ok([
        has_required(&value, &["b", "a"]),
        has_required(&value, &["a", "c"]),
        has_only_allowed(members, &["c", "b", "a"]),
        has_only_allowed(members, &["a", "c"]),
    ])
}

#[test]
fn keys_of_a_value(rt: HostRuntime) {
    assert!(rt; json_in(rt.alloc(), TWO_KEYS, 12).err() == Some(TextFault::TooLong));
    assert!(rt; has_its_keys(rt.alloc()) == Ok([true, false, true, false]));
}

/// The number of the fault, and of the fault in it.
fn numbers_of(fault: TextFault) -> (u32, Option<u32>) {
    (fault.number(), fault.inner_number())
}

#[test]
fn numbers_of_faults(rt: HostRuntime) {
    assert!(rt; numbers_of(TextFault::OutOfMemory) == (9, None));
    assert!(rt; numbers_of(TextFault::Fact(FactFault::AnswerKind)) == (8, Some(7)));
    assert!(rt; numbers_of(TextFault::Plan(PlanFault::BadName)) == (10, Some(6)));
}
