//! The beam: of all beginnings of one length those that promise most.

use crate::board::{Board, Row, Touch, board_of};
use crate::position::{EMPTY, Mark, first_word, fits, limit_of, open_in, place, row_in, settle};
use crate::score::{Scores, Weights, score, scores_of};
use base_values::OutOfMemory;
use search_lists::{Table, short};
use std::alloc::Global;

/// How many beginnings of one length stay at most, and how many rows are looked at before the search gives up.
#[derive(Clone, Copy)]
pub struct Breadth {
    pub width: usize,
    pub most: u64,
}

/// A row in an order, with its fate.
#[derive(Clone, Copy)]
pub struct Placed {
    pub row: usize,
    pub commits: bool,
}

/// The order that was found, if one was, and how many rows were looked at.
#[derive(Drop)]
pub struct Found {
    pub order: Option<Vec<Placed>>,
    pub work: u64,
}

/// A beginning with one row more, by its score and its key: which beginning of the beam that was, and the row with its fate.
#[derive(Clone, Copy, PartialEq, Eq, PartialOrd, Ord)]
struct Candidate {
    score: i64,
    key: u64,
    from: u32,
    row: u32,
    commits: bool,
}

const NO_CANDIDATE: Candidate = Candidate {
    score: 0,
    key: 0,
    from: 0,
    row: 0,
    commits: false,
};

const NO_PLACED: Placed = Placed {
    row: 0,
    commits: false,
};

/// Beginnings of one length: for each one its marks, the rows that are placed, as bits, and what the cells hold.
#[derive(Drop)]
struct Front {
    marks: Table<Mark>,
    bits: Table<u64>,
    values: Table<i64>,
}

impl Front {
    /// No beginnings. It does not allocate.
    fn empty(alloc: Global) -> Front {
        Front {
            marks: Table::new(alloc, EMPTY),
            bits: Table::new(alloc, 0),
            values: Table::new(alloc, 0),
        }
    }

    /// Whether some growth was refused.
    fn is_short(&self) -> bool {
        self.marks.is_short() | self.bits.is_short() | self.values.is_short()
    }
}

/// One beginning that is being made.
#[derive(Drop)]
struct Draft {
    mark: Mark,
    bits: Table<u64>,
    values: Table<i64>,
}

/// A search, as far as it is.
#[derive(Drop)]
struct Beam {
    scores: Scores,
    draft: Draft,
    front: Front,
    next: Front,
    candidates: Table<Candidate>,
    /// By which steps the beginnings of each length were made, and where those of each length begin.
    steps: Table<Candidate>,
    starts: Table<usize>,
    /// The steps of the order that was found, from the last one back; the rows that were placed before a step; and the order.
    back: Table<Candidate>,
    before: Table<u64>,
    order: Table<Placed>,
}

impl Beam {
    /// Of no beginning yet.
    fn of(alloc: Global, board: &Board, weights: Weights) -> Beam {
        Beam {
            scores: scores_of(alloc, board, weights),
            draft: Draft {
                mark: EMPTY,
                bits: Table::new(alloc, 0),
                values: Table::new(alloc, 0),
            },
            front: Front::empty(alloc),
            next: Front::empty(alloc),
            candidates: Table::new(alloc, NO_CANDIDATE),
            steps: Table::new(alloc, NO_CANDIDATE),
            starts: Table::new(alloc, 0),
            back: Table::new(alloc, NO_CANDIDATE),
            before: Table::new(alloc, 0),
            order: Table::new(alloc, NO_PLACED),
        }
    }

    /// Whether some growth was refused.
    fn is_short(&self) -> bool {
        self.scores.is_short()
            | self.draft.bits.is_short()
            | self.draft.values.is_short()
            | self.front.is_short()
            | self.next.is_short()
            | self.candidates.is_short()
            | self.steps.is_short()
            | self.starts.is_short()
            | self.back.is_short()
            | self.before.is_short()
            | self.order.is_short()
    }
}

/// The draft becomes the beginning of no rows, once all are placed that are no choice.
fn begin(draft: &mut Draft, board: &Board, openings: &[i64]) {
    draft.mark = EMPTY;
    draft.bits.clear();
    draft.bits.fill(board.words);
    draft.values.clear();
    draft.values.add_all(openings);
    let (bits, values) = (draft.bits.items_mut(), draft.values.items());
    settle(board, bits, values, &mut draft.mark);
}

/// The draft becomes the beginning of that number.
fn take(draft: &mut Draft, board: &Board, front: &Front, number: usize) {
    let (words, cells) = (board.words, board.scales.len());
    let (bits, values) = (number.wrapping_mul(words), number.wrapping_mul(cells));
    draft.mark = front.marks.at(number);
    draft.bits.clear();
    draft
        .bits
        .add_all(front.bits.range(bits, bits.wrapping_add(words)));
    draft.values.clear();
    draft
        .values
        .add_all(front.values.range(values, values.wrapping_add(cells)));
}

/// Adds the draft to the beginnings.
fn keep(front: &mut Front, draft: &Draft) {
    front.marks.add(draft.mark);
    front.bits.add_all(draft.bits.items());
    front.values.add_all(draft.values.items());
}

/// Places one row more, and all that are no choice then.
fn go_on(draft: &mut Draft, board: &Board, row: usize, commits: bool) {
    let (bits, values) = (draft.bits.items_mut(), draft.values.items_mut());
    place(board, bits, values, &mut draft.mark, row, commits);
    settle(board, bits, values, &mut draft.mark);
}

/// Adds the beginning with the row as a candidate, unless it leads nowhere.
fn add_candidate(beam: &mut Beam, board: &Board, step: Candidate) {
    let draft = &mut beam.draft;
    take(draft, board, &beam.front, step.from as usize);
    go_on(draft, board, step.row as usize, step.commits);
    let (bits, values) = (draft.bits.items(), draft.values.items());
    if let Some(score) = score(&mut beam.scores, board, bits, values, draft.mark) {
        let key = draft.mark.key;
        beam.candidates.add(Candidate { score, key, ..step });
    }
}

/// Adds what may become of the beginning of that number by one row of the word.
fn add_word(beam: &mut Beam, board: &Board, number: usize, word: usize, open: u64) {
    let cells = board.scales.len();
    let from = number.wrapping_mul(cells);
    let mut open = open;
    for _ in 0..64 {
        if open == 0 {
            break;
        }
        let row = row_in(word, open);
        open &= open.wrapping_sub(1);
        let line = board.lines.at(row);
        let values = beam.front.values.range(from, from.wrapping_add(cells));
        if !line.is_mover || !fits(board, line, values) {
            continue;
        }
        let step = Candidate {
            from: short(number),
            row: short(row),
            commits: true,
            ..NO_CANDIDATE
        };
        add_candidate(beam, board, step);
        if line.row.may_abort {
            let step = Candidate {
                commits: false,
                ..step
            };
            add_candidate(beam, board, step);
        }
    }
}

/// Adds what may become of the beginnings by one row more.
fn add_all(beam: &mut Beam, board: &Board) {
    beam.candidates.clear();
    for number in 0..beam.front.marks.len() {
        let from = number.wrapping_mul(board.words);
        let to = from.wrapping_add(board.words);
        let limit = limit_of(board, beam.front.marks.at(number).low);
        let first = first_word(beam.front.bits.range(from, to));
        for word in first..limit.div_ceil(64) {
            let open = open_in(beam.front.bits.range(from, to), word, limit);
            add_word(beam, board, number, word, open);
        }
    }
}

/// Makes of the best candidates, each once, the next beginnings, so many at most, and notes by which steps.
fn keep_best(beam: &mut Beam, board: &Board, width: usize) {
    beam.next.marks.clear();
    beam.next.bits.clear();
    beam.next.values.clear();
    let mut last = None;
    for candidate in beam.candidates.items() {
        if beam.next.marks.len() >= width {
            break;
        }
        if last == Some(candidate.key) {
            continue;
        }
        last = Some(candidate.key);
        take(&mut beam.draft, board, &beam.front, candidate.from as usize);
        go_on(
            &mut beam.draft,
            board,
            candidate.row as usize,
            candidate.commits,
        );
        keep(&mut beam.next, &beam.draft);
        beam.steps.add(*candidate);
    }
}

/// How many rows may change a number: so many steps has an order.
fn count_movers(board: &Board) -> usize {
    let mut count: usize = 0;
    for line in board.lines.items() {
        if line.is_mover {
            count = count.wrapping_add(1);
        }
    }
    count
}

/// Adds the rows to the order that are placed in the draft and were not before, but for that one. They change nothing, so they stand in the order in
/// which they began.
fn add_fresh(beam: &mut Beam, board: &Board, skipped: usize) {
    for word in 0..board.words {
        let mut fresh = beam.draft.bits.at(word) & !beam.before.at(word);
        for _ in 0..64 {
            if fresh == 0 {
                break;
            }
            let row = row_in(word, fresh);
            fresh &= fresh.wrapping_sub(1);
            if row != skipped {
                let commits = board.lines.at(row).row.may_commit;
                beam.order.add(Placed { row, commits });
            }
        }
    }
}

/// Makes the order by which the last beginning of that number came.
fn make_order(beam: &mut Beam, board: &Board, openings: &[i64], last: usize) {
    let (count, mut number) = (beam.starts.len(), last);
    for length in 0..count {
        let start = beam.starts.at(count - 1 - length);
        let step = beam.steps.at(start.wrapping_add(number));
        beam.back.add(step);
        number = step.from as usize;
    }
    begin(&mut beam.draft, board, openings);
    beam.before.fill(board.words);
    add_fresh(beam, board, board.lines.len());
    for place in 0..count {
        let step = beam.back.at(count - 1 - place);
        let (row, commits) = (step.row as usize, step.commits);
        beam.before.clear();
        beam.before.add_all(beam.draft.bits.items());
        beam.order.add(Placed { row, commits });
        go_on(&mut beam.draft, board, row, commits);
        add_fresh(beam, board, row);
    }
}

/// Searches by the beam, and makes an order, if there is one. It gives whether there is.
fn search(beam: &mut Beam, board: &Board, openings: &[i64], breadth: Breadth) -> bool {
    begin(&mut beam.draft, board, openings);
    keep(&mut beam.front, &beam.draft);
    for _ in 0..count_movers(board) {
        add_all(beam, board);
        let is_spent = beam.scores.work > breadth.most || beam.is_short();
        if is_spent || beam.candidates.is_empty() {
            return false;
        }
        beam.candidates.items_mut().sort_unstable();
        beam.starts.add(beam.steps.len());
        keep_best(beam, board, breadth.width);
        std::mem::swap(&mut beam.front, &mut beam.next);
    }
    for number in 0..beam.front.marks.len() {
        if beam.front.marks.at(number).placed == board.lines.len() {
            make_order(beam, board, openings, number);
            return true;
        }
    }
    false
}

/// Searches for an order of the rows, whose touches are sorted, from what the cells open with. Each row of an order that is found sees what the rows
/// before it leave, and stands where it may.
pub fn find(
    alloc: Global,
    rows: &[Row],
    touches: &[Touch],
    openings: &[i64],
    weights: Weights,
    breadth: Breadth,
) -> Result<Found, OutOfMemory> {
    let Some(board) = board_of(alloc, rows, touches, openings) else {
        return Ok(Found {
            order: None,
            work: 0,
        });
    };
    let mut beam = Beam::of(alloc, &board, weights);
    let is_found = search(&mut beam, &board, openings, breadth);
    if beam.is_short() || board.is_short() {
        return Err(OutOfMemory);
    }
    let work = beam.scores.work;
    let order = std::mem::replace(&mut beam.order, Table::new(alloc, NO_PLACED));
    let order = if is_found {
        Some(order.into_items())
    } else {
        None
    };
    Ok(Found { order, work })
}
