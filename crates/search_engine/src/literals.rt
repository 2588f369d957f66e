//! Literals as numbers.

pub(crate) use search_lists::{NONE, Table, at, push, range, set, short};

/// The literal that always holds, and the one that never does.
pub(crate) const TRUE: u32 = 0;

pub(crate) const FALSE: u32 = 1;

/// The literal that holds where this one does not.
pub(crate) fn neg(literal: u32) -> u32 {
    literal ^ 1
}

/// The variable of the literal.
pub(crate) fn var(literal: u32) -> usize {
    (literal >> 1) as usize
}

/// Puts the item at the end of the list, and gives its number.
pub(crate) fn number_item<T: Copy + Drop>(list: &mut Table<T>, item: T) -> u32 {
    let number = short(list.len());
    list.add(item);
    number
}
