//! Drops learned clauses that were of little use.

use crate::encoding::{ClauseRank, Clauses, LENGTH, LEVELS, LINK, LITERALS, ORIGIN};
use crate::known::{Antecedent, Assigned, Known};
use crate::literals::{NONE, Table, short, var};
use crate::watches::watch_all;

/// The word of the clause.
fn word(arena: &Table<u32>, clause: u32, which: usize) -> u32 {
    arena.at((clause as usize).wrapping_add(which))
}

/// Writes the word of the clause.
fn set_word(arena: &mut Table<u32>, clause: u32, which: usize, to: u32) {
    arena.set((clause as usize).wrapping_add(which), to);
}

/// Ranks the learned clauses, the best first.
fn rank_learned(ranks: &mut Table<ClauseRank>, arena: &Table<u32>, learned: &Table<u32>) {
    ranks.clear();
    for place in 0..learned.len() {
        let clause = learned.at(place);
        ranks.add(ClauseRank {
            levels: word(arena, clause, LEVELS),
            length: word(arena, clause, LENGTH),
            clause,
        });
    }
    ranks.items_mut().sort_unstable();
}

/// Marks the worse half of the ranked clauses, but for the best ones, by no levels.
fn mark_worse(arena: &mut Table<u32>, ranks: &Table<ClauseRank>) {
    for place in ranks.len() / 2..ranks.len() {
        let found = ranks.at(place);
        if found.levels > 3 {
            set_word(arena, found.clause, LEVELS, NONE);
        }
    }
}

/// The clause after this one.
fn next_clause(arena: &Table<u32>, clause: u32) -> u32 {
    let length = word(arena, clause, LENGTH) as usize;
    short(
        (clause as usize)
            .wrapping_add(LITERALS)
            .wrapping_add(length),
    )
}

/// Notes in each clause which variable it is the antecedent of, or none.
fn note_antecedents(arena: &mut Table<u32>, known: &Known) {
    let mut clause: u32 = 0;
    for _ in 0..arena.len() {
        if clause as usize >= arena.len() {
            break;
        }
        set_word(arena, clause, LINK, NONE);
        clause = next_clause(arena, clause);
    }
    for place in 0..known.count {
        let literal = known.trail.at(place);
        if let Antecedent::Clause(clause) = known.state(literal).antecedent {
            set_word(arena, clause, LINK, short(var(literal)));
        }
    }
}

/// Moves so many words of a clause to where it goes.
fn move_words(arena: &mut Table<u32>, clause: u32, to: u32, length: u32) {
    for index in 0..length as usize {
        let found = word(arena, clause, index);
        set_word(arena, to, index, found);
    }
}

/// Moves the clauses together that stay, as they are the antecedent of a variable, which is told, or not marked; and gives where they end.
fn pack(arena: &mut Table<u32>, states: &mut Table<Assigned>) -> u32 {
    let mut clause: u32 = 0;
    let mut to: u32 = 0;
    for _ in 0..arena.len() {
        if clause as usize >= arena.len() {
            break;
        }
        let next = next_clause(arena, clause);
        let variable = word(arena, clause, LINK);
        if variable != NONE {
            let mut state = states.at(variable as usize);
            state.antecedent = Antecedent::Clause(to);
            states.set(variable as usize, state);
        }
        if (variable != NONE) | (word(arena, clause, LEVELS) != NONE) {
            let length = next.wrapping_sub(clause);
            move_words(arena, clause, to, length);
            to = to.wrapping_add(length);
        }
        clause = next;
    }
    to
}

/// Lists the learned clauses of the arena.
fn list_learned(learned: &mut Table<u32>, arena: &Table<u32>) {
    learned.clear();
    let mut clause: u32 = 0;
    for _ in 0..arena.len() {
        if clause as usize >= arena.len() {
            break;
        }
        if word(arena, clause, ORIGIN) == NONE {
            learned.add(clause);
        }
        clause = next_clause(arena, clause);
    }
}

/// Drops the worse half of the learned clauses. Those that something follows from stay, and so do the best ones.
pub(crate) fn reduce(clauses: &mut Clauses, known: &mut Known) {
    let arena = &mut clauses.arena;
    rank_learned(&mut clauses.ranks, arena, &clauses.learned);
    mark_worse(arena, &clauses.ranks);
    note_antecedents(arena, known);
    let end = pack(arena, &mut known.states);
    arena.truncate(end as usize);
    list_learned(&mut clauses.learned, arena);
    let count = clauses.heads.len();
    watch_all(clauses, count);
}
