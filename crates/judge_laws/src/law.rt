//! A law of any kind.

use aud_event::OutOfMemory;
use judge_cells::CellLaw;
use judge_clauses::{KnownFacts, Law, Literal};
use judge_queues::QueueLaw;
use judge_sums::SumLaw;
use std::alloc::Allocator;

/// A law of registers, sets and maps by their cells, of counters and sets by sums, or of queues.
#[derive(Clone, Copy)]
pub enum ObjectLaw {
    Cell(CellLaw),
    Sum(SumLaw),
    Queue(QueueLaw),
}

impl Law for ObjectLaw {
    fn is_right<A: Allocator + Copy>(
        &self,
        alloc: A,
        facts: &KnownFacts<A>,
        clause: &[Literal],
    ) -> Result<bool, OutOfMemory> {
        match self {
            ObjectLaw::Cell(law) => law.is_right(alloc, facts, clause),
            ObjectLaw::Sum(law) => law.is_right(alloc, facts, clause),
            ObjectLaw::Queue(law) => law.is_right(alloc, facts, clause),
        }
    }
}
