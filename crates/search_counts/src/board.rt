//! What rows do with cells, as it is looked up.

use search_lists::{NONE, Table, short};
use std::alloc::Global;

/// A transaction; the rows are in the order in which they began.
#[derive(Clone, Copy)]
pub struct Row {
    /// The first row that began after it ended: it stands before that one and all later ones. The number of rows, where it did not end.
    pub end: usize,
    /// How many rows should stand by the time that it ended.
    pub due: usize,
    pub has_ended: bool,
    pub may_commit: bool,
    pub may_abort: bool,
}

/// What a row does with a cell: the number that it first sees there, if it looks before it adds, and how much it adds when it commits.
#[derive(Clone, Copy, PartialEq, Eq, PartialOrd, Ord)]
pub struct Touch {
    pub row: usize,
    pub cell: usize,
    pub need: Option<i64>,
    pub gain: i64,
}

/// A row with its touches, and whether it may change a number.
#[derive(Clone, Copy)]
pub(crate) struct Line {
    pub row: Row,
    pub from: u32,
    pub to: u32,
    pub is_mover: bool,
}

pub(crate) const NO_LINE: Line = Line {
    row: Row {
        end: 0,
        due: 0,
        has_ended: false,
        may_commit: false,
        may_abort: true,
    },
    from: 0,
    to: 0,
    is_mover: false,
};

/// A touch, and the numbers of what it sees and of what it leaves among all numbers of all cells, if it sees one and leaves another.
#[derive(Clone, Copy)]
pub(crate) struct Part {
    pub cell: u32,
    pub need: Option<i64>,
    pub gain: i64,
    pub seen: u32,
    pub left: u32,
}

/// The numbers of a cell: the least one, how many there are, and the number of the first among all numbers.
#[derive(Clone, Copy)]
pub(crate) struct Scale {
    pub least: i64,
    pub count: i64,
    pub from: u32,
}

pub(crate) const NO_SCALE: Scale = Scale {
    least: 0,
    count: 0,
    from: 0,
};

/// What rows do with cells.
#[derive(Drop)]
pub(crate) struct Board {
    pub lines: Table<Line>,
    pub parts: Table<Part>,
    /// The rows in the order in which they ended.
    pub by_end: Table<Ending>,
    pub scales: Table<Scale>,
    /// How many numbers there are.
    pub numbers: usize,
    /// How many words the marks of all rows have.
    pub words: usize,
}

impl Board {
    /// Whether some growth was refused.
    pub(crate) fn is_short(&self) -> bool {
        self.lines.is_short()
            | self.parts.is_short()
            | self.by_end.is_short()
            | self.scales.is_short()
    }
}

/// A row by when it ended.
#[derive(Clone, Copy, PartialEq, Eq, PartialOrd, Ord)]
pub(crate) struct Ending {
    end: usize,
    pub row: usize,
}

const NO_ENDING: Ending = Ending { end: 0, row: 0 };

const NO_PART: Part = Part {
    cell: 0,
    need: None,
    gain: 0,
    seen: NONE,
    left: NONE,
};

/// The most numbers that are told apart.
const NUMBERS_MAX: usize = 1 << 20;

/// The cell has the number.
fn widen(scales: &mut Table<Scale>, cell: usize, number: i64) {
    let mut scale = scales.at(cell);
    let last = scale.least.saturating_add(scale.count);
    if number < scale.least {
        scale.least = number;
        scale.count = last.saturating_sub(number);
    } else if number >= last {
        scale.count = number.saturating_sub(scale.least).saturating_add(1);
    }
    scales.set(cell, scale);
}

/// Reads the numbers of the cells, and numbers them. It gives how many there are; or none, where there are too many.
fn read_scales(scales: &mut Table<Scale>, touches: &[Touch], openings: &[i64]) -> Option<usize> {
    for opening in openings {
        scales.add(Scale {
            least: *opening,
            count: 1,
            from: 0,
        });
    }
    for touch in touches {
        if let Some(need) = touch.need {
            widen(scales, touch.cell, need);
            widen(scales, touch.cell, need.saturating_add(touch.gain));
        }
    }
    let mut from: usize = 0;
    for scale in scales.items_mut() {
        scale.from = short(from);
        if scale.count < 0 || scale.count > 1_048_576 {
            return None;
        }
        from = from.saturating_add(scale.count as usize);
        if from > NUMBERS_MAX {
            return None;
        }
    }
    Some(from)
}

/// The number of a cell's number among all.
pub(crate) fn slot_of(scale: Scale, number: i64) -> u32 {
    let place = number.wrapping_sub(scale.least);
    if place < 0 || place >= scale.count || place > 1_048_576 {
        return NONE;
    }
    scale.from.wrapping_add(short(place as usize))
}

/// The touch as a part.
fn part_of(scale: Scale, touch: Touch, may_commit: bool) -> Part {
    let gain = if may_commit { touch.gain } else { 0 };
    let (seen, left) = match touch.need {
        Some(need) if gain != 0 => (
            slot_of(scale, need),
            slot_of(scale, need.saturating_add(gain)),
        ),
        _ => (NONE, NONE),
    };
    Part {
        cell: short(touch.cell),
        need: touch.need,
        gain,
        seen,
        left,
    }
}

/// Adds the row with its touches, which are those from the place on. The place after them is given.
fn add_line(board: &mut Board, row: Row, number: usize, touches: &[Touch], place: usize) -> usize {
    let from = short(board.parts.len());
    let mut is_mover = false;
    let mut next = place;
    for _ in place..touches.len() {
        let Some(touch) = touches.get(next) else {
            break;
        };
        if touch.row != number {
            break;
        }
        let scale = board.scales.at(touch.cell);
        let part = part_of(scale, *touch, row.may_commit);
        is_mover = is_mover || part.gain != 0;
        board.parts.add(part);
        next = next.wrapping_add(1);
    }
    let to = short(board.parts.len());
    board.lines.add(Line {
        row,
        from,
        to,
        is_mover,
    });
    next
}

/// The board of the rows and their touches, which are sorted; or none, where there are too many numbers.
pub(crate) fn board_of(
    alloc: Global,
    rows: &[Row],
    touches: &[Touch],
    openings: &[i64],
) -> Option<Board> {
    let mut board = Board {
        lines: Table::new(alloc, NO_LINE),
        parts: Table::new(alloc, NO_PART),
        by_end: Table::new(alloc, NO_ENDING),
        scales: Table::new(alloc, NO_SCALE),
        numbers: 0,
        words: rows.len().div_ceil(64),
    };
    board.numbers = read_scales(&mut board.scales, touches, openings)?;
    let mut place: usize = 0;
    for (row, found) in rows.iter().enumerate() {
        place = add_line(&mut board, *found, row, touches, place);
        let end = if found.has_ended {
            found.end
        } else {
            rows.len()
        };
        board.by_end.add(Ending { end, row });
    }
    board.by_end.items_mut().sort_unstable();
    Some(board)
}
