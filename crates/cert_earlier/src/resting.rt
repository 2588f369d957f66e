//! Whether a prefix is refuted by earlier lines: by its kids, by a silent transaction, or by a prefix that leads to the same transactions and
//! states.

ghost use Rattle.std.specs.Prelude.{◌≡◌, ◌↔◌, Some, IfOk, OnOk, IsTrue};
ghost use Rattle.aud_order.specs.Silent.{silent_fate};
ghost use Rattle.aud_order.specs.Shapes.{objects_of, history_of};
ghost use Rattle.cert_earlier.specs.Resting.{LeadAlike};
ghost use Rattle.cert_earlier.specs.OfShapes.{AreGoodFor, HasKidsFor, HasLines, HasSameFor, HasSilentFor};

use crate::earlier::{Earlier, is_among};
use crate::moving::go_to;
use aud_event::OutOfMemory;
use aud_order::{Cursor, Shape};
use aud_witness::Decision;
use std::alloc::Allocator;

/// Whether the prefix followed by each of the kids is the prefix of an earlier line.
fn has_all<'c, A: Allocator + Copy>(
    earlier: &Earlier<'c, A>,
    prefix: &'c [Decision],
    kids: &[Decision],
) -> bool
    ensures { IsTrue result ↔ HasLines earlier.now.prefixes prefix.entry.now kids.now }
{
    let noted = earlier.after(prefix);
    for kid in kids {
        if !is_among(noted, *kid) {
            return false;
        }
    }
    true
}

/// Whether the prefix is not full and each of its kids, which are computed anew, is the prefix of an earlier line.
pub fn has_kids<'c, A: Allocator + Copy>(
    alloc: A,
    cursor: &mut Cursor<A>,
    earlier: &Earlier<'c, A>,
    prefix: &'c [Decision],
) -> Result<bool, OutOfMemory>
    requires { cursor.old.path ≡ prefix.now }
    ensures accepted { IfOk result (λ has. IsTrue has ↔ HasKidsFor cursor.old.shape earlier.now.prefixes prefix.now) }
    ensures stays { OnOk result (cursor.new ≡ cursor.old) }
{
    if cursor.full() {
        return Ok(false);
    }
    let kids = cursor.kids(alloc)?;
    Ok(has_all(earlier, prefix, &kids))
}

/// Whether the decision is of a silent transaction, with its silent fate.
fn is_silent<A: Allocator + Copy>(shape: &Shape<A>, decision: Decision) -> bool
    ensures { IsTrue result ↔ (silent_fate (history_of shape.now) decision.tx ≡ Some decision.fate) }
{
    match shape.silent(decision.tx) {
        None => false,
        Some(fate) => fate == decision.fate,
    }
}

/// Whether the decision is of a silent transaction with its silent fate, is good after the prefix, and leads to the prefix of an
/// earlier line. The cursor goes with it where it is silent and good.
pub fn has_silent<'c, A: Allocator + Copy>(
    shape: &Shape<A>,
    cursor: &mut Cursor<A>,
    earlier: &Earlier<'c, A>,
    prefix: &'c [Decision],
    decision: Decision,
) -> Result<bool, OutOfMemory>
    requires path { cursor.old.path ≡ prefix.now }
    requires shape { cursor.old.shape ≡ shape.now }
    ensures accepted { IfOk result (λ has. IsTrue has ↔ HasSilentFor shape.now earlier.now.prefixes prefix.now decision) }
    ensures shape { OnOk result (cursor.new.shape ≡ cursor.old.shape) }
{
    if !is_silent(shape, decision) {
        return Ok(false);
    }
    if !cursor.push(decision)?.is_good() {
        return Ok(false);
    }
    Ok(earlier.has_after(prefix, decision))
}

/// Whether the prefixes of the two cursors place the same transactions and leave the same states.
fn lead_alike<A: Allocator + Copy>(cursor: &Cursor<A>, other: &Cursor<A>) -> bool
    requires { other.now.shape ≡ cursor.now.shape }
    ensures { IsTrue result ↔ LeadAlike (objects_of cursor.now.shape) (history_of cursor.now.shape) cursor.now.path other.now.path }
{
    let _good = cursor.prefix();
    let _other_good = other.prefix();
    if !cursor.placed().same(other.placed()) {
        return false;
    }
    cursor.store().same(other.store())
}

/// Whether it is kept of the earlier prefix that it leads to where the cursor stands.
fn is_kept_of<'c, A: Allocator + Copy>(
    cursor: &Cursor<A>,
    earlier: &Earlier<'c, A>,
    prefix: &'c [Decision],
) -> bool
    requires shape { earlier.now.shape ≡ cursor.now.shape }
    requires good { AreGoodFor cursor.now.shape earlier.now.prefixes }
    ensures { IsTrue result → HasSameFor cursor.now.shape earlier.now.prefixes cursor.now.path prefix.now }
{
    let _good = cursor.prefix();
    match earlier.landing(prefix) {
        Some(landing) => landing.is_of(cursor),
        None => false,
    }
}

/// Whether the prefix is that of an earlier line, and leads to where the cursor stands. Where it is not kept where it leads, the
/// other cursor goes there.
pub fn has_same<'c, A: Allocator + Copy>(
    cursor: &Cursor<A>,
    other: &mut Cursor<A>,
    earlier: &Earlier<'c, A>,
    prefix: &'c [Decision],
) -> Result<bool, OutOfMemory>
    requires shape { other.old.shape ≡ cursor.now.shape }
    requires earlier { earlier.now.shape ≡ cursor.now.shape }
    requires good { AreGoodFor cursor.now.shape earlier.now.prefixes }
    ensures accepted { IfOk result (λ has. IsTrue has ↔ HasSameFor cursor.now.shape earlier.now.prefixes cursor.now.path prefix.now) }
    ensures shape { OnOk result (other.new.shape ≡ other.old.shape) }
{
    if is_kept_of(cursor, earlier, prefix) {
        return Ok(true);
    }
    if !earlier.has(prefix) {
        return Ok(false);
    }
    if !go_to(other, prefix)? {
        return Ok(false);
    }
    Ok(lead_alike(cursor, other))
}
