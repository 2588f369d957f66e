//! The laws of cells.

use crate::between::{is_after_opening, is_after_source, is_standing};
use crate::clash::is_clash;
use crate::sources::are_listed;
use aud_event::OutOfMemory;
use judge_clauses::{KnownFacts, Law, Literal, Read};
use search_model::Cell;
use std::alloc::Allocator;

/// A law of cells, with what it is applied to. What real time or a sure fate denies the clause need not say.
#[derive(Clone, Copy)]
pub enum CellLaw {
    /// Some row left in the cell what the reader first needs of it, or the cell opened so: the clause says of each that may have left it that
    /// it is the source.
    Sources(Read),
    /// The source stands before the reader and commits: the clause says one of both, or that this one is not the source.
    SourceStands(Read, u32),
    /// Another one that commits and changes the cell stands before the source, if there is one, or after the reader.
    Between(Read, Option<u32>, u32),
    /// The transaction's block contradicts itself on the cell.
    Clash(u32, u16, Cell),
}

impl Law for CellLaw {
    fn is_right<A: Allocator + Copy>(
        &self,
        alloc: A,
        facts: &KnownFacts<A>,
        clause: &[Literal],
    ) -> Result<bool, OutOfMemory> {
        match *self {
            CellLaw::Sources(read) => are_listed(alloc, facts, clause, read),
            CellLaw::SourceStands(read, source) => Ok(is_standing(facts, clause, read, source)),
            CellLaw::Between(read, Some(source), other) => {
                Ok(is_after_source(facts, clause, read, source, other))
            }
            CellLaw::Between(read, None, other) => {
                Ok(is_after_opening(facts, clause, read, other))
            }
            CellLaw::Clash(tx, object, cell) => Ok(is_clash(facts, clause, tx, object, cell)),
        }
    }
}
