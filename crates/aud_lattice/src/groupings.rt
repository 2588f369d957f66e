//! The order and the grouping of joins do not show.

ghost use Rattle.std.specs.Prelude.{◌≡◌, ◌<◌, IfOk, Some, length, map};
ghost use Rattle.aud_lattice.specs.Laws.{merged};

use crate::Lattice;
use base_values::{Dup, OutOfMemory};

/// The values joined from the front, of which there is one at least.
pub fn joined<L: Lattice + Dup>(values: &[L]) -> Result<L, OutOfMemory>
    requires { 0 < length values.now }
    ensures { IfOk result (λ all. merged L.merge (map L.meaning values.now) ≡ Some (L.meaning all)) }
{
    let mut all = values[0].dup()?;
    for value in &values[1..] {
        all.join(value)?;
    }
    Ok(all)
}

/// The values joined from the front; and in two halves, of which the back one then takes the front one.
pub fn joined_both_ways<L: Lattice + Dup>(values: &[L]) -> Result<(L, L), OutOfMemory>
    requires { 0 < length values.now }
    ensures front { IfOk result (λ both. merged L.merge (map L.meaning values.now) ≡ Some (L.meaning both.0)) }
    ensures halves { IfOk result (λ both. merged L.merge (map L.meaning values.now) ≡ Some (L.meaning both.1)) }
{
    let front = joined(values)?;
    let middle = values.len() / 2;
    if middle == 0 {
        let halves = front.dup()?;
        return Ok((front, halves));
    }
    let (left, right) = values.split_at(middle);
    let left = joined(left)?;
    let mut halves = joined(right)?;
    halves.join(&left)?;
    Ok((front, halves))
}
