//! Searches below prefixes, and over what was refuted before. What a search of a whole history says `tests/worked` asks.

ghost use Rattle.std.specs.Prelude.{◌≡◌};

use crate::fixtures::shape_of;
use aud_order::Shape;
use aud_search::{Outcome, Scene, Session, Shared, explore};
use aud_text::read_order;
use std::alloc::Global;
use std::marker::Brand;
use test_worked::{NINE_COUNTERS, PENDING_COMMIT_IS_UNSEEN, TORN_READ_THEN_ABORT, Unread};

/// What a search with a budget reports, the order aside: whether there is one, if the budget sufficed.
type Told = Option<bool>;

const REFUTED: Told = Some(false);

const FOUND: Told = Some(true);

const SPENT: Told = None;

fn without_order(outcome: Outcome) -> Told {
    match outcome {
        Outcome::Refuted => REFUTED,
        Outcome::Witness(_) => FOUND,
        Outcome::Spent => SPENT,
    }
}

/// A worked history, a prefix, a budget, and what is reported of the orders that begin with the prefix.
type Row = (&'static str, &'static str, u64, Told);

static BUDGETS: [Row; 8] = [
    (TORN_READ_THEN_ABORT, "none", 0, SPENT),
    (TORN_READ_THEN_ABORT, "none", 1, SPENT),
    (TORN_READ_THEN_ABORT, "none", 2, REFUTED),
    (TORN_READ_THEN_ABORT, "1c", 0, SPENT),
    (TORN_READ_THEN_ABORT, "1c", 1, REFUTED),
    (TORN_READ_THEN_ABORT, "2c", 0, REFUTED),
    (TORN_READ_THEN_ABORT, "1a", 0, REFUTED),
    (PENDING_COMMIT_IS_UNSEEN, "2c 1c", 0, FOUND),
];

fn is_told(alloc: Global, row: &Row) -> Result<bool, Unread> {
    let shape = shape_of(alloc, row.0)?;
    let prefix = read_order(alloc, row.1.as_bytes())?;
    Ok(without_order(explore(alloc, &shape, &prefix, row.2)?) == row.3)
}

#[test]
fn budgets_are_spent_exactly(rt: HostRuntime) {
    for (at, row) in BUDGETS.iter().enumerate() {
        assert!(rt; is_told(rt.alloc(), row) == Ok(true), "in row {at}");
    }
}

/// What a search over what it refuted before reports of the orders that begin with the prefix.
fn explored<'a, J: Scene>(
    alloc: Global,
    session: &mut Session<'a, J>,
    prefix: &str,
    budget: u64,
) -> Result<Told, Unread> {
    let prefix = read_order(alloc, prefix.as_bytes())?;
    Ok(without_order(session.explore(&prefix, budget)?))
}

/// Whether one search over what is shared reports that of the prefixes in turn, each within its budget.
fn tells<J: Scene>(
    alloc: Global,
    shape: &Shape,
    shared: &Shared<J>,
    asked: &[(&'static str, u64)],
    wanted: Told,
) -> Result<bool, Unread>
    requires { shape.now ≡ J.shape }
{
    let mut session = Session::new(alloc, shape, Some(shared));
    for (prefix, budget) in asked {
        if explored(alloc, &mut session, prefix, *budget)? != wanted {
            return Ok(false);
        }
    }
    Ok(true)
}

/// Whether that is reported of all prefixes of the shape, over what was refuted there of those that begin with one of them, and again of
/// all prefixes by another search, which shares what was refuted.
fn remembers<J: Scene>(
    alloc: Global,
    shape: &Shape,
    budget: u64,
    wanted: Told,
) -> Result<bool, Unread>
    requires { shape.now ≡ J.shape }
{
    let shared = Shared::<J>::new(alloc, 2)?;
    let is_first = tells(
        alloc,
        shape,
        &shared,
        &[("none", budget), ("1c", 1)],
        wanted,
    )?;
    Ok(is_first && tells(alloc, shape, &shared, &[("none", 1)], wanted)?)
}

/// The bytes of nine counters. A static, of which no proof has to know them.
static NINE: &str = NINE_COUNTERS;

/// Whether searches of nine counters remember as `remembers` asks.
fn counters_remember(alloc: Global, budget: u64, wanted: Told) -> Result<bool, Unread> {
    let shape = shape_of(alloc, NINE)?;
    remembers::<Brand>(alloc, &shape, budget, wanted)
}

#[test]
fn what_was_refuted_is_not_expanded_again(rt: HostRuntime) {
    assert!(rt; counters_remember(rt.alloc(), 256, REFUTED) == Ok(true));
    assert!(rt; counters_remember(rt.alloc(), 0, SPENT) == Ok(true));
}
