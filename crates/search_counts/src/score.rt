//! How much a beginning promises.

use crate::board::{Board, Row, slot_of};
use crate::position::{Mark, first_word, limit_of, open_in, parts_of, row_in};
use search_lists::{Table, at, short};
use std::alloc::Global;

/// What counts how much; the least sum promises most.
#[derive(Clone, Copy)]
pub struct Weights {
    /// How far the numbers are from what a row sees, where it is due soon: by a share that falls as a power, and by one over the square of the time.
    pub near: i64,
    pub far: i64,
    /// The same of a row by itself.
    pub late: i64,
    pub later: i64,
    /// Less for each row that adds and has not looked.
    pub blind: i64,
    /// For each row more that sees a number than leave it.
    pub lack: i64,
    /// Where few rows may be placed next.
    pub narrow: i64,
    /// How many sixteenths of a row's time count by when it is due; the others by when it has to stand.
    pub share: i64,
}

/// Weights that found orders of different runs in trials: six narrow beams of different weights find more than a wide one.
pub const WEIGHTS: [Weights; 6] = [
    Weights {
        near: 0,
        far: 1,
        late: 0,
        later: 9,
        blind: 3,
        lack: 3,
        narrow: 0,
        share: 8,
    },
    Weights {
        near: 0,
        far: 1,
        late: 0,
        later: 3,
        blind: 2,
        lack: 2,
        narrow: 0,
        share: 8,
    },
    Weights {
        near: 0,
        far: 4,
        late: 0,
        later: 3,
        blind: 2,
        lack: 3,
        narrow: 0,
        share: 12,
    },
    Weights {
        near: 4,
        far: 1,
        late: 1,
        later: 6,
        blind: 6,
        lack: 4,
        narrow: 2,
        share: 12,
    },
    Weights {
        near: 1,
        far: 4,
        late: 1,
        later: 6,
        blind: 6,
        lack: 8,
        narrow: 0,
        share: 8,
    },
    Weights {
        near: 1,
        far: 4,
        late: 0,
        later: 9,
        blind: 6,
        lack: 8,
        narrow: 0,
        share: 12,
    },
];

/// How many more rows see a number than leave it, as far as the scoring of that stamp has come.
#[derive(Clone, Copy)]
pub(crate) struct Balance {
    stamp: u32,
    count: i32,
}

const EVEN: Balance = Balance { stamp: 0, count: 0 };

/// What scores are read from: the weights, by how many rows are left until a row is due what each step of distance costs and what the row itself
/// does, and until how many rows are placed each row is due.
#[derive(Drop)]
pub(crate) struct Scores {
    weights: Weights,
    steps: Table<i64>,
    lates: Table<i64>,
    dues: Table<usize>,
    balances: Table<Balance>,
    stamp: u32,
    /// How many rows were looked at.
    pub work: u64,
}

impl Scores {
    /// Whether some growth was refused.
    pub(crate) fn is_short(&self) -> bool {
        self.steps.is_short()
            | self.lates.is_short()
            | self.dues.is_short()
            | self.balances.is_short()
    }
}

/// Until how many rows are placed the row is due.
fn due_of(row: Row, share: i64) -> usize {
    let share = share.max(0).min(16) as usize;
    let last = row
        .end
        .saturating_sub(1)
        .saturating_mul(16usize.wrapping_sub(share));
    row.due.saturating_mul(share).saturating_add(last) / 16
}

/// What each step of distance costs, and what the row itself does, where so many rows are left until it is due. The power is of the number of them.
fn costs_of(weights: Weights, power: i64, left: u32) -> (i64, i64) {
    let next = i64::from(left).saturating_add(1);
    let square = 4096 / next.saturating_mul(next).max(1);
    let step = weights.near.wrapping_mul(power);
    let late = weights.late.wrapping_mul(power);
    (
        step.wrapping_add(weights.far.wrapping_mul(square)),
        late.wrapping_add(weights.later.wrapping_mul(square)),
    )
}

/// The power of one row more.
fn weaker(power: i64) -> i64 {
    power.wrapping_mul(867) / 1024
}

/// The scores of a board.
pub(crate) fn scores_of(alloc: Global, board: &Board, weights: Weights) -> Scores {
    let mut scores = Scores {
        weights,
        steps: Table::new(alloc, 0),
        lates: Table::new(alloc, 0),
        dues: Table::new(alloc, 0),
        balances: Table::new(alloc, EVEN),
        stamp: 0,
        work: 0,
    };
    let mut power: i64 = 256;
    for left in 0..board.lines.len() {
        let (step, late) = costs_of(weights, power, short(left));
        scores.steps.add(step);
        scores.lates.add(late);
        let row = board.lines.at(left).row;
        scores.dues.add(due_of(row, weights.share));
        power = weaker(power);
    }
    scores.balances.fill(board.numbers);
    scores
}

/// One more sees the number, or one more leaves it. What that changes of all that is lacking.
fn turn(balances: &mut [Balance], stamp: u32, number: u32, sees: bool) -> i64 {
    let Some(found) = balances.get_mut(number as usize) else {
        return 0;
    };
    if found.stamp != stamp {
        found.stamp = stamp;
        found.count = 0;
    }
    let old = found.count;
    if sees {
        found.count = old.wrapping_add(1);
        i64::from(old >= 0)
    } else {
        found.count = old.wrapping_sub(1);
        -i64::from(old > 0)
    }
}

/// What the numbers of the cells, and each row that may be placed next, add to a score.
#[derive(Clone, Copy)]
struct Sum {
    total: i64,
    lack: i64,
    count: i64,
}

/// Adds what the row adds. False where it can no longer be placed.
fn add_row(
    scores: &mut Scores,
    board: &Board,
    values: &[i64],
    mark: Mark,
    row: usize,
    sum: &mut Sum,
) -> bool {
    let line = board.lines.at(row);
    if line.row.has_ended && line.row.end <= mark.placed {
        return false;
    }
    let mut distance: i64 = 1;
    for part in parts_of(board, line) {
        if let Some(need) = part.need {
            let far = need.wrapping_sub(at(values, part.cell as usize, 0));
            distance = distance.saturating_add(far.saturating_abs());
        }
        if part.gain != 0 && part.need.is_some() {
            let balances = scores.balances.items_mut();
            let sees = turn(balances, scores.stamp, part.seen, true);
            let leaves = turn(balances, scores.stamp, part.left, false);
            sum.lack = sum.lack.wrapping_add(sees).wrapping_add(leaves);
        } else if part.gain != 0 {
            sum.total = sum
                .total
                .wrapping_sub(scores.weights.blind.wrapping_mul(256));
        }
    }
    sum.count = sum.count.wrapping_add(1);
    if line.row.has_ended {
        let left = scores.dues.at(row).saturating_sub(mark.placed);
        let step = scores.steps.at(left).wrapping_mul(distance);
        let late = scores.lates.at(left);
        sum.total = sum.total.wrapping_add(step).wrapping_add(late);
    }
    true
}

/// Adds what the rows of the word add. False where one can no longer be placed.
fn add_word(
    scores: &mut Scores,
    board: &Board,
    (values, mark): (&[i64], Mark),
    (word, bits): (usize, u64),
    sum: &mut Sum,
) -> bool {
    let mut open = bits;
    for _ in 0..64 {
        if open == 0 {
            break;
        }
        let row = row_in(word, open);
        open &= open.wrapping_sub(1);
        if !add_row(scores, board, values, mark, row, sum) {
            return false;
        }
    }
    true
}

/// The cells leave their numbers.
fn add_values(scores: &mut Scores, board: &Board, values: &[i64], sum: &mut Sum) {
    for cell in 0..values.len() {
        let number = slot_of(board.scales.at(cell), values[cell]);
        let leaves = turn(scores.balances.items_mut(), scores.stamp, number, false);
        sum.lack = sum.lack.wrapping_add(leaves);
    }
}

/// The score of a beginning, or none, where it leads nowhere.
pub(crate) fn score(
    scores: &mut Scores,
    board: &Board,
    bits: &[u64],
    values: &[i64],
    mark: Mark,
) -> Option<i64> {
    scores.stamp = scores.stamp.wrapping_add(1);
    let mut sum = Sum {
        total: 0,
        lack: 0,
        count: 0,
    };
    let limit = limit_of(board, mark.low);
    for word in first_word(bits)..limit.div_ceil(64) {
        let open = open_in(bits, word, limit);
        if !add_word(scores, board, (values, mark), (word, open), &mut sum) {
            return None;
        }
    }
    add_values(scores, board, values, &mut sum);
    scores.work = scores
        .work
        .wrapping_add(u64::from(short(sum.count.max(0) as usize)));
    let lack = scores.weights.lack.wrapping_mul(256).wrapping_mul(sum.lack);
    let square = sum
        .count
        .saturating_add(1)
        .saturating_mul(sum.count.saturating_add(1));
    let narrow = scores
        .weights
        .narrow
        .wrapping_mul(147_456)
        .checked_div(square)
        .unwrap_or(0);
    Some(sum.total.wrapping_add(lack).wrapping_add(narrow))
}
