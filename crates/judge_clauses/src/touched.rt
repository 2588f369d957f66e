//! Which objects each row has executions on.

ghost use Rattle.std.specs.Prelude.{◌≡◌, ℕ, true, IfOk};
ghost use Rattle.judge_clauses.specs.Touching.{mentions, IsMarked, AreMarked};

use aud_event::OutOfMemory;
use aud_history::TxRow;
use aud_object::Execution;
use base_bits::Marks;
use std::alloc::Allocator;

/// Marks the object, if there is one of the number.
fn mark<A: Allocator + Copy>(marks: &mut Marks<A>, object: u16)
    ensures keeps { (x : ℕ) → IsMarked marks.old x → IsMarked marks.new x }
    ensures adds { IsMarked marks.new object }
{
    let place = usize::from(object);
    if place < marks.len() {
        marks.put(place);
    }
}

/// Of so many objects, those that the executions are on.
fn marks_of<A: Allocator + Copy>(
    alloc: A,
    objects: usize,
    executions: &[Execution],
) -> Result<Marks<A>, OutOfMemory>
    ensures { IfOk result (λ marks. (x : ℕ) → mentions x executions.now ≡ true → IsMarked marks x) }
{
    let mut marks = Marks::none(alloc, objects)?;
    for execution in executions {
        mark(&mut marks, execution.object);
    }
    Ok(marks)
}

/// Of so many objects, those that the executions of each row are on.
pub(crate) fn marks_of_rows<A: Allocator + Copy>(
    alloc: A,
    objects: usize,
    rows: &[TxRow<A>],
) -> Result<Vec<Marks<A>, A>, OutOfMemory>
    ensures { IfOk result (λ touched. AreMarked rows.now touched.items) }
{
    let mut touched = Vec::new(alloc);
    for row in rows {
        touched.push(marks_of(alloc, objects, row.block().executions())?)?;
    }
    Ok(touched)
}
