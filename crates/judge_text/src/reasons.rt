//! The reasons of steps, as lines spell them.

use crate::fields::Fields;
use aud_event::OutOfMemory;
use judge_clauses::Reason;
use judge_laws::{CellLaw, FrontItem, ObjectLaw, QueueLaw, SumLaw};
use std::alloc::Global;

/// The numbers after the word, if the array has nothing else.
fn numbers(alloc: Global, fields: Fields<'_>) -> Result<Option<Vec<u32>>, OutOfMemory> {
    let mut list = Vec::new(alloc);
    for place in 1..fields.len() {
        let Some(number) = fields.number(place) else {
            return Ok(None);
        };
        list.push(number)?;
    }
    Ok(Some(list))
}

/// The law of cells that the fields spell, if they spell one.
fn cell_law(fields: Fields<'_>) -> Option<CellLaw> {
    match (fields.word()?, fields.len()) {
        ("sources", 3) => Some(CellLaw::Sources(fields.read(1)?)),
        ("stands", 4) => Some(CellLaw::SourceStands(fields.read(1)?, fields.number(3)?)),
        ("between", 5) => Some(CellLaw::Between(
            fields.read(1)?,
            fields.number_or_null(3)?,
            fields.number(4)?,
        )),
        ("clash", 3) => {
            let read = fields.read(1)?;
            Some(CellLaw::Clash(read.reader, read.object, read.cell))
        }
        _ => None,
    }
}

/// The law of sums that the fields spell, if they spell one.
fn sum_law(fields: Fields<'_>) -> Option<SumLaw> {
    match (fields.word()?, fields.len()) {
        ("counter", 3) => Some(SumLaw::Counter(fields.number(1)?, fields.object(2)?)),
        ("remainder", 4) => Some(SumLaw::Remainder(
            fields.number(1)?,
            fields.object(2)?,
            fields.signed(3)?,
        )),
        ("counts", 3) => Some(SumLaw::Clash(fields.number(1)?, fields.object(2)?)),
        ("element", 4) => Some(SumLaw::Element(
            fields.number(1)?,
            fields.object(2)?,
            fields.signed(3)?,
        )),
        _ => None,
    }
}

/// What stood in front: the two fields from the place on.
fn front(fields: Fields<'_>, place: usize) -> Option<FrontItem> {
    Some(FrontItem {
        adder: fields.number(place)?,
        value: fields.signed(place.checked_add(1)?)?,
    })
}

/// The law of queues that the fields spell, if they spell one.
fn queue_law(fields: Fields<'_>) -> Option<QueueLaw> {
    match (fields.word()?, fields.len()) {
        ("items", 4) => Some(QueueLaw::Items(fields.take(1)?)),
        ("item", 6) => Some(QueueLaw::ItemStands(
            fields.take(1)?,
            fields.number(4)?,
            fields.number(5)?,
        )),
        ("place", 6) => Some(QueueLaw::Place(
            fields.take(1)?,
            fields.number(4)?,
            fields.number(5)?,
        )),
        ("empty", 4) => Some(QueueLaw::Empty(
            fields.number(1)?,
            fields.object(2)?,
            fields.number(3)?,
        )),
        ("gone", 8) => Some(QueueLaw::Gone(
            fields.take(1)?,
            fields.number(4)?,
            fields.number(5)?,
            front(fields, 6)?,
        )),
        ("left", 6) => Some(QueueLaw::Left(
            fields.number(1)?,
            fields.object(2)?,
            fields.number(3)?,
            front(fields, 4)?,
        )),
        _ => None,
    }
}

/// The law of objects that the fields spell, if they spell one.
fn law(fields: Fields<'_>) -> Option<ObjectLaw> {
    if let Some(law) = cell_law(fields) {
        return Some(ObjectLaw::Cell(law));
    }
    if let Some(law) = sum_law(fields) {
        return Some(ObjectLaw::Sum(law));
    }
    Some(ObjectLaw::Queue(queue_law(fields)?))
}

/// The reason that the array spells, if it spells one.
pub(crate) fn reason(
    alloc: Global,
    fields: Fields<'_>,
) -> Result<Option<Reason<ObjectLaw>>, OutOfMemory> {
    match fields.word() {
        Some("units") => match numbers(alloc, fields)? {
            Some(steps) => Ok(Some(Reason::Units(steps))),
            None => Ok(None),
        },
        Some("turn") => match numbers(alloc, fields)? {
            Some(circle) => Ok(Some(Reason::Circle(circle))),
            None => Ok(None),
        },
        Some(_) => match law(fields) {
            Some(law) => Ok(Some(Reason::Law(law))),
            None => Ok(None),
        },
        None => Ok(None),
    }
}
