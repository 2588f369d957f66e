//! The laws of queues.

use crate::gone::{FrontItem, has_item_in_front, is_left};
use crate::items::lists_items;
use crate::places::{is_apart, is_displaced, is_filled};
use aud_event::OutOfMemory;
use judge_clauses::{KnownFacts, Law, Literal, Take};
use std::alloc::Allocator;

/// What is known of queues in each order that shows a history. An item is named by who added it, and by which of its own additions to the queue
/// it is, from 0.
#[derive(Clone, Copy)]
pub enum QueueLaw {
    /// What is taken is one of the additions that the clause lists.
    Items(Take),
    /// Another transaction that adds what is taken stands before the taker, and commits.
    ItemStands(Take, u32, u32),
    /// The item that is taken is at its place: as many are taken before as are added before.
    Place(Take, u32, u32),
    /// The transaction whose execution at this place of its block found the queue empty: as many are taken before as are added.
    Empty(u32, u16, u32),
    /// What stood in front of the item that is taken was taken before.
    Gone(Take, u32, u32, FrontItem),
    /// What stood in the queue that was found empty was taken before.
    Left(u32, u16, u32, FrontItem),
}

impl Law for QueueLaw {
    fn is_right<A: Allocator + Copy>(
        &self,
        alloc: A,
        facts: &KnownFacts<A>,
        clause: &[Literal],
    ) -> Result<bool, OutOfMemory> {
        match *self {
            QueueLaw::Items(take) => Ok(lists_items(facts, clause, take)),
            QueueLaw::ItemStands(take, adder, addition) => {
                Ok(is_apart(facts, clause, take, adder, addition))
            }
            QueueLaw::Place(take, adder, addition) => {
                is_displaced(alloc, facts, clause, take, adder, addition)
            }
            QueueLaw::Empty(taker, queue, place) => {
                is_filled(alloc, facts, clause, taker, queue, place as usize)
            }
            QueueLaw::Gone(take, adder, addition, front) => {
                Ok(has_item_in_front(facts, clause, take, (adder, addition), front))
            }
            QueueLaw::Left(taker, queue, place, front) => {
                Ok(is_left(facts, clause, taker, queue, place as usize, front))
            }
        }
    }
}
