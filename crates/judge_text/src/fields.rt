//! Fields of a JSON array by their places, as the lines of refutations have them.

use aud_event::{ObjKind, Plan};
use judge_clauses::{Read, Take};
use search_model::Cell;
use serde_json::Value;

/// An array of a line, and what its objects are called.
#[derive(Clone, Copy)]
pub(crate) struct Fields<'a> {
    pub values: &'a [Value],
    pub plan: &'a Plan,
}

impl<'a> Fields<'a> {
    /// The array, if the value is one.
    pub(crate) fn of(value: &'a Value, plan: &'a Plan) -> Option<Fields<'a>> {
        let values = value.as_array()?;
        Some(Fields {
            values: values.as_slice(),
            plan,
        })
    }

    /// The fields after the first ones, so many.
    pub(crate) fn after(self, count: usize) -> Option<Fields<'a>> {
        Some(Fields {
            values: self.values.get(count..)?,
            plan: self.plan,
        })
    }

    /// How many there are.
    pub(crate) fn len(self) -> usize {
        self.values.len()
    }

    /// The one at the place, if there is one.
    fn value(self, place: usize) -> Option<&'a Value> {
        self.values.get(place)
    }

    /// The word that says what the array is.
    pub(crate) fn word(self) -> Option<&'a str> {
        self.value(0)?.as_str()
    }

    /// The number at the place.
    pub(crate) fn number(self, place: usize) -> Option<u32> {
        u32::try_from(self.value(place)?.as_u64()?).ok()
    }

    /// The number with a sign at the place.
    pub(crate) fn signed(self, place: usize) -> Option<i64> {
        self.value(place)?.as_i64()
    }

    /// The number at the place, or none where that has a null.
    pub(crate) fn number_or_null(self, place: usize) -> Option<Option<u32>> {
        if self.value(place)?.is_null() {
            return Some(None);
        }
        Some(Some(self.number(place)?))
    }

    /// The object that is called so at the place.
    pub(crate) fn object(self, place: usize) -> Option<u16> {
        let name = self.value(place)?.as_str()?;
        self.plan.number(name)
    }

    /// The cell at the place: a register by its name, or an element or a key by the name of its object and its number.
    pub(crate) fn cell(self, place: usize) -> Option<(u16, Cell)> {
        let value = self.value(place)?;
        if let Some(name) = value.as_str() {
            let object = self.plan.number(name)?;
            return Some((object, Cell::Whole));
        }
        let parts = Fields::of(value, self.plan)?;
        let object = parts.object(0)?;
        let number = parts.signed(1)?;
        match self.plan.object(usize::from(object))?.kind {
            ObjKind::SetOf => Some((object, Cell::Element(number))),
            ObjKind::MapOf => Some((object, Cell::Key(number))),
            _ => None,
        }
    }

    /// What a transaction first sees of a cell: the two fields from the place on.
    pub(crate) fn read(self, place: usize) -> Option<Read> {
        let reader = self.number(place)?;
        let (object, cell) = self.cell(place.checked_add(1)?)?;
        Some(Read {
            reader,
            object,
            cell,
        })
    }

    /// An item that is taken: the three fields from the place on.
    pub(crate) fn take(self, place: usize) -> Option<Take> {
        let taker = self.number(place)?;
        let object = self.object(place.checked_add(1)?)?;
        let number = self.number(place.checked_add(2)?)?;
        Some(Take {
            taker,
            object,
            number,
        })
    }
}
