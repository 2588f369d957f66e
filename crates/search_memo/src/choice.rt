//! All choices of a history, in the order in which a search tries them.

ghost use Rattle.std.specs.Prelude.{◌≡◌, ◌++◌, map, Some, IfOk, OnOk};
ghost use Rattle.aud_order.specs.Shapes.{history_of};
ghost use Rattle.search_memo.specs.Choices.{AreChoices, AreMarkedSilent, AreMarkedFrom, StayMarked, key_of, row_choices, both_choices, choices_from};

use aud_event::OutOfMemory;
use aud_history::TxRow;
use aud_order::Shape;
use aud_witness::{Decision, Fate, allows};
use std::alloc::Allocator;

/// Whether others see anything of a transaction with a fate.
#[derive(Clone, Copy, PartialEq, Eq, PartialOrd, Ord)]
pub enum Visibility {
    /// They see nothing, whatever its fate: it may be placed at once wherever it is good.
    Silent,
    /// They see what it did, or that it did not.
    Visible,
}

/// In which order a search tries transactions.
#[derive(Clone, Copy)]
pub enum Order {
    /// By their last events. Those whose last event stands before this place come after the others: with 0 none does.
    Last(u32),
    /// By their first events.
    First,
}

impl Order {
    /// Whether the row's transaction comes after the others, and by which place it is ordered.
    fn rank<A: Allocator>(self, row: &TxRow<A>) -> (bool, u32) {
        match self {
            Order::Last(from) => (row.last() < from, row.last()),
            Order::First => (false, row.first()),
        }
    }
}

/// A decision that a completion may make, with the place of its transaction's row.
///
/// Choices are ordered as a search tries them: first those of silent transactions, and last those of transactions that the order leaves
/// for later; then by the rank of the transaction, and that it commits before that it aborts. The rank is most often its last event, as
/// most memories let their transactions take effect about when they end.
#[derive(Clone, Copy, PartialEq, Eq, PartialOrd, Ord)]
pub struct Choice {
    pub visibility: Visibility,
    pub is_late: bool,
    pub rank: u32,
    pub place: usize,
    pub decision: Decision,
}

/// Whether others see anything of a transaction with the fate.
fn visibility_of(silent: Option<Fate>, fate: Fate) -> Visibility
    ensures { result ≡ Visibility.Silent → silent ≡ Some fate }
{
    match fate {
        Fate::C => match silent {
            Some(Fate::C) => Visibility::Silent,
            Some(Fate::A) => Visibility::Visible,
            None => Visibility::Visible,
        },
        Fate::A => match silent {
            Some(Fate::C) => Visibility::Visible,
            Some(Fate::A) => Visibility::Silent,
            None => Visibility::Visible,
        },
    }
}

/// Adds the choice of the fate, if a completion may give it to the row's transaction, whose silent fate is known.
fn add_choice<A: Allocator>(
    choices: &mut Vec<Choice, A>,
    order: Order,
    place: usize,
    row: &TxRow<A>,
    silent: Option<Fate>,
    fate: Fate,
) -> Result<(), OutOfMemory>
    ensures marked { OnOk result (AreMarkedFrom choices.old.items choices.new.items row.now.tx silent) }
    ensures added { OnOk result (map key_of choices.new.items ≡ map key_of choices.old.items ++ row_choices place row.now fate) }
{
    if allows(row.status(), fate) {
        let visibility = visibility_of(silent, fate);
        let decision = Decision { tx: row.tx(), fate };
        let (is_late, rank) = order.rank(row);
        choices.push(Choice {
            visibility,
            is_late,
            rank,
            place,
            decision,
        })?;
    }
    Ok(())
}

/// Adds the choices of the row's transaction.
fn add_row<A: Allocator + Copy>(
    choices: &mut Vec<Choice, A>,
    shape: &Shape<A>,
    order: Order,
    place: usize,
    row: &TxRow<A>,
) -> Result<(), OutOfMemory>
    ensures added { OnOk result (map key_of choices.new.items ≡ map key_of choices.old.items ++ both_choices place row.now) }
    ensures marked { OnOk result (StayMarked (history_of shape.now) choices.old.items choices.new.items) }
{
    let silent = shape.silent(row.tx());
    add_choice(choices, order, place, row, silent, Fate::C)?;
    add_choice(choices, order, place, row, silent, Fate::A)?;
    Ok(())
}

/// The choices of all rows, by the rows' places.
fn gather<A: Allocator + Copy>(
    alloc: A,
    shape: &Shape<A>,
    order: Order,
    rows: &[TxRow<A>],
) -> Result<Vec<Choice, A>, OutOfMemory>
    ensures all { IfOk result (λ choices. map key_of choices.items ≡ choices_from 0 rows.now) }
    ensures marked { IfOk result (λ choices. AreMarkedSilent (history_of shape.now) choices.items) }
{
    let mut choices = Vec::new(alloc);
    for (place, row) in rows.iter().enumerate() {
        add_row(&mut choices, shape, order, place, row)?;
    }
    Ok(choices)
}

/// All choices of the history, in the order.
pub fn choices_of<A: Allocator + Copy>(
    alloc: A,
    shape: &Shape<A>,
    order: Order,
) -> Result<Vec<Choice, A>, OutOfMemory>
    ensures { IfOk result (λ choices. AreChoices (history_of shape.now) choices.items) }
{
    let _sound = shape.history();
    let mut choices = gather(alloc, shape, order, shape.table().rows())?;
    choices.sort()?;
    Ok(choices)
}
