//! Reading the lines of facts.

ghost use Rattle.std.specs.Prelude.{◌≡◌, ◌⊎◌, Err};
ghost use Rattle.aud_text.specs.FactText.{fact_read};

use crate::spelled::fact_spelled;
use crate::value::json_in;
use aud_event::{Fact, Plan};
use aud_json::{TextFault, judge};
use std::alloc::{Allocator, Global};

/// The most bytes that a line of a plan or of a fact may have, its line feed aside.
pub const LINE_MAX: usize = 4096;

/// The fact that a line says in the plan, or the least fault that it deserves.
pub fn read_fact<A: Allocator>(
    alloc: Global,
    plan: &Plan<A>,
    line: &[u8],
) -> Result<Fact, TextFault>
    ensures { (result ≡ Err TextFault.OutOfMemory) ⊎ (result ≡ fact_read plan.now line.now) }
{
    // Most lines are spelled as they are written here, and need no JSON value.
    if let Some(fact) = fact_spelled(plan, line) {
        return Ok(fact);
    }
    let value = match json_in(alloc, line, LINE_MAX) {
        Ok(value) => value,
        Err(fault) => return Err(fault),
    };
    judge(plan, &value)
}
