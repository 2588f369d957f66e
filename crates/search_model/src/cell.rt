//! Parts of objects that are changed and seen as a whole, and what may be needed of one.

/// A part of an object that is changed and seen as a whole.
#[derive(Clone, Copy, PartialEq, Eq)]
pub enum Cell {
    /// All of a register.
    Whole,
    /// An element of a set.
    Element(i64),
    /// A key of a map.
    Key(i64),
}

/// What may be needed of a cell.
#[derive(Clone, Copy, PartialEq, Eq)]
pub enum Need {
    /// It holds nothing.
    Absent,
    /// It holds something.
    Present,
    /// It holds this; a set's element holds 0.
    Holding(i64),
}
