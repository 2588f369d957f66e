//! Refutations of small histories, by the laws of each kind: they are accepted, and not once an answer or a step is another.

use crate::fixtures::push;
use aud_event::{Answer, Event, ObjDecl, ObjKind, Op, OpName, OutOfMemory, Plan};
use aud_history::History;
use judge_cells::CellLaw;
use judge_clauses::{Atom, Judgement, Law, Literal, Read, Reason, Refutation, Step, Take, judge};
use judge_queues::{FrontItem, QueueLaw};
use judge_sums::SumLaw;
use search_model::Cell;
use std::alloc::Global;
use std::process::Abort;
use std::sync::Arc;

/// Why the clause of a step holds.
enum Why<L> {
    By(L),
    Circle(&'static [u32]),
    Units(&'static [u32]),
}

/// A clause, and why it holds.
type Line<L> = (&'static [Literal], Why<L>);

/// Events on these objects, each of which opens at 0, and whether the steps refute them. The last event and the last steps stand apart,
/// so that rows share what is before them.
struct Row<L: 'static> {
    objects: &'static [(&'static str, ObjKind)],
    events: &'static [(u32, Event)],
    last: (u32, Event),
    atoms: &'static [Atom],
    steps: &'static [Line<L>],
    then: &'static [Line<L>],
    refutes: bool,
}

/// The history of the row's events.
fn history_of<L>(alloc: Global, row: &Row<L>) -> Result<Option<History>, OutOfMemory> {
    let mut objects = Vec::new(alloc);
    for (name, kind) in row.objects {
        let decl = ObjDecl {
            name: String::from_str(alloc, name)?,
            kind: *kind,
            opening: 0,
        };
        push(&mut objects, decl)?;
    }
    let Ok(plan) = Plan::new(alloc, 1, objects) else {
        return Ok(None);
    };
    let plan = Arc::new(alloc, plan)?;
    let mut events = Vec::from_slice(alloc, row.events)?;
    push(&mut events, row.last)?;
    Ok(History::checked(plan, events))
}

/// Adds these steps.
fn add_steps<L: Copy + Drop>(
    alloc: Global,
    steps: &mut Vec<Step<L>>,
    lines: &[Line<L>],
) -> Result<(), OutOfMemory> {
    for (clause, why) in lines {
        let reason = match why {
            Why::By(law) => Reason::Law(*law),
            Why::Circle(circle) => Reason::Circle(Vec::from_slice(alloc, circle)?),
            Why::Units(numbers) => Reason::Units(Vec::from_slice(alloc, numbers)?),
        };
        push(steps, Step::new(Vec::from_slice(alloc, clause)?, reason))?;
    }
    Ok(())
}

/// Whether the row's steps refute its events.
fn is_refuted<L: Law + Copy + Drop>(alloc: Global, row: &Row<L>) -> Result<bool, OutOfMemory> {
    let Some(history) = history_of(alloc, row)? else {
        return Ok(false);
    };
    if history.first_fault().is_some() {
        return Ok(false);
    }
    let mut steps = Vec::new(alloc);
    add_steps(alloc, &mut steps, row.steps)?;
    add_steps(alloc, &mut steps, row.then)?;
    let atoms = Vec::from_slice(alloc, row.atoms)?;
    Ok(judge(alloc, &history, &Refutation { atoms, steps })? == Judgement::Refutes)
}

/// Asserts that the steps of each row refute its events, or do not, as it says.
fn judged<L: Law + Copy + Drop>(rt: &impl Abort, alloc: Global, of: &str, rows: &[Row<L>]) {
    for (at, row) in rows.iter().enumerate() {
        assert!(rt;
            is_refuted(alloc, row) == Ok(row.refutes),
            "in row {at} of {of}"
        );
    }
}

#[test]
fn small_histories_are_refuted(rt: HostRuntime) {
    judged(&rt, rt.alloc(), "cells", &CELLS);
    judged(&rt, rt.alloc(), "sums", &SUMS);
    judged(&rt, rt.alloc(), "queues", &QUEUES);
}

macro_rules! yes {
    ($atom:expr) => {
        Literal {
            atom: $atom,
            holds: true,
        }
    };
}

macro_rules! no {
    ($atom:expr) => {
        Literal {
            atom: $atom,
            holds: false,
        }
    };
}

macro_rules! read {
    ($reader:expr, $object:expr) => {
        Read {
            reader: $reader,
            object: $object,
            cell: Cell::Whole,
        }
    };
}

const X: u16 = 0;

const Y: u16 = 1;

/// T1 writes 1 and commits; then T2 reads 0.
const STALE_READ: Row<CellLaw> = Row {
    objects: &[("x", ObjKind::Register), ("y", ObjKind::Register)],
    events: &[
        (1, Event::Inv(X, Op::Write(1))),
        (1, Event::Ret(X, OpName::Write, Answer::Done)),
        (1, Event::TryC),
        (1, Event::Commit),
        (2, Event::Inv(X, Op::Read)),
    ],
    last: (2, Event::Ret(X, OpName::Read, Answer::Int(0))),
    atoms: &[],
    steps: &[(&[], Why::By(CellLaw::Sources(read!(2, X))))],
    then: &[],
    refutes: true,
};

/// T1 reads 0, and then 1.
const TORN_READ: Row<CellLaw> = Row {
    objects: &[("x", ObjKind::Register), ("y", ObjKind::Register)],
    events: &[
        (1, Event::Inv(X, Op::Read)),
        (1, Event::Ret(X, OpName::Read, Answer::Int(0))),
        (1, Event::Inv(X, Op::Read)),
    ],
    last: (1, Event::Ret(X, OpName::Read, Answer::Int(1))),
    atoms: &[],
    steps: &[(&[], Why::By(CellLaw::Clash(1, X, Cell::Whole)))],
    then: &[],
    refutes: true,
};

/// T1 writes x, T2 writes y, T3 sees T1 and not T2, and T4 sees T2 and not T1, all at once: the circle T1, T3, T2, T4 refutes it.
const CROSSING: Row<CellLaw> = Row {
    objects: &[("x", ObjKind::Register), ("y", ObjKind::Register)],
    events: &[
        (1, Event::Inv(X, Op::Write(1))),
        (2, Event::Inv(Y, Op::Write(1))),
        (3, Event::Inv(X, Op::Read)),
        (4, Event::Inv(Y, Op::Read)),
        (1, Event::Ret(X, OpName::Write, Answer::Done)),
        (2, Event::Ret(Y, OpName::Write, Answer::Done)),
        (3, Event::Ret(X, OpName::Read, Answer::Int(1))),
        (4, Event::Ret(Y, OpName::Read, Answer::Int(1))),
        (3, Event::Inv(Y, Op::Read)),
        (4, Event::Inv(X, Op::Read)),
        (3, Event::Ret(Y, OpName::Read, Answer::Int(0))),
        (4, Event::Ret(X, OpName::Read, Answer::Int(0))),
        (1, Event::TryC),
        (2, Event::TryC),
        (3, Event::TryC),
        (4, Event::TryC),
        (1, Event::Commit),
        (2, Event::Commit),
        (3, Event::Commit),
    ],
    last: (4, Event::Commit),
    atoms: &[
        Atom::Source(read!(3, X), 1),
        Atom::Opening(read!(3, Y)),
        Atom::Source(read!(4, Y), 2),
        Atom::Opening(read!(4, X)),
        Atom::Before(1, 3),
        Atom::Before(2, 3),
        Atom::Before(2, 4),
        Atom::Before(1, 4),
    ],
    steps: &[
        (&[yes!(0)], Why::By(CellLaw::Sources(read!(3, X)))),
        (
            &[no!(0), yes!(4)],
            Why::By(CellLaw::SourceStands(read!(3, X), 1)),
        ),
        (&[yes!(1)], Why::By(CellLaw::Sources(read!(3, Y)))),
        (
            &[no!(1), no!(5)],
            Why::By(CellLaw::Between(read!(3, Y), None, 2)),
        ),
        (&[yes!(2)], Why::By(CellLaw::Sources(read!(4, Y)))),
        (
            &[no!(2), yes!(6)],
            Why::By(CellLaw::SourceStands(read!(4, Y), 2)),
        ),
        (&[yes!(3)], Why::By(CellLaw::Sources(read!(4, X)))),
        (
            &[no!(3), no!(7)],
            Why::By(CellLaw::Between(read!(4, X), None, 1)),
        ),
    ],
    then: &[
        (CIRCLE, Why::Circle(&[1, 3, 2, 4])),
        (&[], Why::Units(&[0, 1, 2, 3, 4, 5, 6, 7, 8])),
    ],
    refutes: true,
};

const CIRCLE: &[Literal] = &[no!(4), yes!(5), no!(6), yes!(7)];

static CELLS: [Row<CellLaw>; 8] = [
    STALE_READ,
    Row {
        last: (2, Event::Ret(X, OpName::Read, Answer::Int(1))),
        refutes: false,
        ..STALE_READ
    },
    TORN_READ,
    Row {
        last: (1, Event::Ret(X, OpName::Read, Answer::Int(0))),
        refutes: false,
        ..TORN_READ
    },
    CROSSING,
    Row {
        then: &[
            (CIRCLE, Why::Circle(&[1, 3, 4, 4])),
            (&[], Why::Units(&[0, 1, 2, 3, 4, 5, 6, 7, 8])),
        ],
        refutes: false,
        ..CROSSING
    },
    Row {
        then: &[
            (CIRCLE, Why::Circle(&[1, 3, 2, 4])),
            (&[], Why::Units(&[0, 1, 2, 3, 4, 5, 6, 7, 9])),
        ],
        refutes: false,
        ..CROSSING
    },
    Row {
        then: &[
            (CIRCLE, Why::Circle(&[1, 3, 2, 4])),
            (&[], Why::Units(&[0, 1, 2, 3, 4, 5, 6, 7, 7])),
        ],
        refutes: false,
        ..CROSSING
    },
];

const INC: Event = Event::Inv(0, Op::Inc);

const INC_DONE: Event = Event::Ret(0, OpName::Inc, Answer::Done);

/// T1 counts up and commits; then T2 finds 0.
const LOST_COUNT: Row<SumLaw> = Row {
    objects: &[("x", ObjKind::Counter)],
    events: &[
        (1, INC),
        (1, INC_DONE),
        (1, Event::TryC),
        (1, Event::Commit),
        (2, Event::Inv(0, Op::Get)),
    ],
    last: (2, Event::Ret(0, OpName::Get, Answer::Int(0))),
    atoms: &[],
    steps: &[(&[], Why::By(SumLaw::Counter(2, 0)))],
    then: &[],
    refutes: true,
};

/// T1 finds 0, counts up, and finds 2.
const TORN_COUNT: Row<SumLaw> = Row {
    objects: &[("x", ObjKind::Counter)],
    events: &[
        (1, Event::Inv(0, Op::Get)),
        (1, Event::Ret(0, OpName::Get, Answer::Int(0))),
        (1, INC),
        (1, INC_DONE),
        (1, Event::Inv(0, Op::Get)),
    ],
    last: (1, Event::Ret(0, OpName::Get, Answer::Int(2))),
    atoms: &[],
    steps: &[(&[], Why::By(SumLaw::Clash(1, 0)))],
    then: &[],
    refutes: true,
};

/// T1 brings 5 in and commits; then T2 does not find it.
const LOST_ELEMENT: Row<SumLaw> = Row {
    objects: &[("x", ObjKind::SetOf)],
    events: &[
        (1, Event::Inv(0, Op::Add(5))),
        (1, Event::Ret(0, OpName::Add, Answer::Flag(true))),
        (1, Event::TryC),
        (1, Event::Commit),
        (2, Event::Inv(0, Op::Contains(5))),
    ],
    last: (2, Event::Ret(0, OpName::Contains, Answer::Flag(false))),
    atoms: &[],
    steps: &[(&[], Why::By(SumLaw::Element(2, 0, 5)))],
    then: &[],
    refutes: true,
};

static SUMS: [Row<SumLaw>; 6] = [
    LOST_COUNT,
    Row {
        last: (2, Event::Ret(0, OpName::Get, Answer::Int(1))),
        refutes: false,
        ..LOST_COUNT
    },
    TORN_COUNT,
    Row {
        last: (1, Event::Ret(0, OpName::Get, Answer::Int(1))),
        refutes: false,
        ..TORN_COUNT
    },
    LOST_ELEMENT,
    Row {
        last: (2, Event::Ret(0, OpName::Contains, Answer::Flag(true))),
        refutes: false,
        ..LOST_ELEMENT
    },
];

const ENQ_DONE: Event = Event::Ret(0, OpName::Enq, Answer::Done);

const DEQ: Event = Event::Inv(0, Op::Deq);

/// What T2 takes first.
const TAKE: Take = Take {
    taker: 2,
    object: 0,
    number: 0,
};

/// T1 adds 5 and 6 and commits; then T2 takes 7, which nobody added.
const AFTER_TWO: Row<QueueLaw> = Row {
    objects: &[("x", ObjKind::Queue)],
    events: &[
        (1, Event::Inv(0, Op::Enq(5))),
        (1, ENQ_DONE),
        (1, Event::Inv(0, Op::Enq(6))),
        (1, ENQ_DONE),
        (1, Event::TryC),
        (1, Event::Commit),
        (2, DEQ),
    ],
    last: (2, Event::Ret(0, OpName::Deq, Answer::Int(7))),
    atoms: &[Atom::Item(TAKE, 1, 0)],
    steps: &[(&[], Why::By(QueueLaw::Items(TAKE)))],
    then: &[],
    refutes: true,
};

/// T2 takes 6, which is at another place.
const AT_ANOTHER_PLACE: Row<QueueLaw> = Row {
    last: (2, Event::Ret(0, OpName::Deq, Answer::Int(6))),
    atoms: &[Atom::Item(TAKE, 1, 1)],
    steps: &[
        (&[yes!(0)], Why::By(QueueLaw::Items(TAKE))),
        (&[no!(0)], Why::By(QueueLaw::Place(TAKE, 1, 1))),
        (&[], Why::Units(&[0, 1])),
    ],
    ..AFTER_TWO
};

/// T2 finds the queue empty, which was filled.
const WAS_FILLED: Row<QueueLaw> = Row {
    last: (2, Event::Ret(0, OpName::Deq, Answer::Empty)),
    steps: &[(&[], Why::By(QueueLaw::Empty(2, 0, 0)))],
    ..AFTER_TWO
};

/// What T3 takes first.
const THIRD: Take = Take {
    taker: 3,
    object: 0,
    number: 0,
};

/// T1 adds 5, then T2 adds 6, and both commit; then T3 takes 6: the 5 of T1 stood in front.
const PASSED_OVER: Row<QueueLaw> = Row {
    objects: &[("x", ObjKind::Queue)],
    events: &[
        (1, Event::Inv(0, Op::Enq(5))),
        (1, ENQ_DONE),
        (1, Event::TryC),
        (1, Event::Commit),
        (2, Event::Inv(0, Op::Enq(6))),
        (2, ENQ_DONE),
        (2, Event::TryC),
        (2, Event::Commit),
        (3, DEQ),
    ],
    last: (3, Event::Ret(0, OpName::Deq, Answer::Int(6))),
    atoms: &[Atom::Item(THIRD, 2, 0)],
    steps: &[
        (&[yes!(0)], Why::By(QueueLaw::Items(THIRD))),
        (
            &[no!(0)],
            Why::By(QueueLaw::Gone(THIRD, 2, 0, FrontItem { adder: 1, value: 5 })),
        ),
        (&[], Why::Units(&[0, 1])),
    ],
    then: &[],
    refutes: true,
};

static QUEUES: [Row<QueueLaw>; 9] = [
    AFTER_TWO,
    Row {
        last: (2, Event::Ret(0, OpName::Deq, Answer::Int(5))),
        refutes: false,
        ..AFTER_TWO
    },
    AT_ANOTHER_PLACE,
    Row {
        last: (2, Event::Ret(0, OpName::Deq, Answer::Int(5))),
        atoms: &[Atom::Item(TAKE, 1, 0)],
        steps: &[
            (&[yes!(0)], Why::By(QueueLaw::Items(TAKE))),
            (&[no!(0)], Why::By(QueueLaw::Place(TAKE, 1, 0))),
            (&[], Why::Units(&[0, 1])),
        ],
        refutes: false,
        ..AT_ANOTHER_PLACE
    },
    WAS_FILLED,
    Row {
        steps: &[(
            &[],
            Why::By(QueueLaw::Left(2, 0, 0, FrontItem { adder: 1, value: 5 })),
        )],
        ..WAS_FILLED
    },
    Row {
        last: (2, Event::Ret(0, OpName::Deq, Answer::Int(5))),
        refutes: false,
        ..WAS_FILLED
    },
    PASSED_OVER,
    Row {
        steps: &[
            (&[yes!(0)], Why::By(QueueLaw::Items(THIRD))),
            (
                &[no!(0)],
                Why::By(QueueLaw::Gone(THIRD, 2, 0, FrontItem { adder: 2, value: 5 })),
            ),
            (&[], Why::Units(&[0, 1])),
        ],
        refutes: false,
        ..PASSED_OVER
    },
];
