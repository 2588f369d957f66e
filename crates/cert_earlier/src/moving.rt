//! A cursor taken from one prefix to another, over what the two begin with in common.

ghost use Rattle.std.specs.Prelude.{◌≡◌, ◌↔◌, ◌≤◌, false, length, take, IfOk, OnOk, IsTrue};
ghost use Rattle.aud_witness.specs.Orders.{IsGood};
ghost use Rattle.aud_order.specs.Shapes.{objects_of, history_of};
ghost use Rattle.cert_earlier.specs.OfShapes.{StaysBeforeFor};

use aud_event::OutOfMemory;
use aud_order::Cursor;
use aud_witness::Decision;
use std::alloc::Allocator;

/// Whether the decisions are the same.
pub(crate) fn is_same(a: Decision, b: Decision) -> bool
    ensures { IsTrue result ↔ (a ≡ b) }
{
    a == b
}

/// How many decisions the two prefixes begin with in common.
fn in_common(a: &[Decision], b: &[Decision]) -> usize
    ensures first { result ≤ length a.now }
    ensures second { result ≤ length b.now }
    ensures same { take result a.now ≡ take result b.now }
{
    let mut count = 0;
    'count: while count < a.len() && count < b.len() {
        if !is_same(a[count], b[count]) {
            return count;
        }
        count += 1;
    }
    count
}

/// Takes the cursor back to so many decisions.
fn go_back<A: Allocator + Copy>(cursor: &mut Cursor<A>, depth: usize)
    requires { depth ≤ length cursor.old.path }
    ensures { cursor.new ≡ record { shape = cursor.old.shape; path = take depth cursor.old.path } }
{
    'back: while cursor.prefix().len() > depth {
        let _ = cursor.pop();
    }
}

/// Takes the cursor to a prefix, and says whether the prefix is good. Where it is not, the cursor stays before the first decision of
/// it that is not good there.
pub fn go_to<A: Allocator + Copy>(
    cursor: &mut Cursor<A>,
    decisions: &[Decision],
) -> Result<bool, OutOfMemory>
    ensures shape { OnOk result (cursor.new.shape ≡ cursor.old.shape) }
    ensures there { IfOk result (λ good. IsTrue good → cursor.new ≡ record { shape = cursor.old.shape; path = decisions.now }) }
    ensures good { IfOk result (λ good. IsTrue good ↔ IsGood (objects_of cursor.old.shape) (history_of cursor.old.shape) decisions.now) }
    ensures stays { IfOk result (λ good. good ≡ false → StaysBeforeFor cursor.old.shape decisions.now cursor.new.path) }
{
    let depth = in_common(cursor.prefix(), decisions);
    go_back(cursor, depth);
    for place in depth..decisions.len() {
        if !cursor.push(decisions[place])?.is_good() {
            let _good = cursor.prefix();
            return Ok(false);
        }
    }
    let _good = cursor.prefix();
    Ok(true)
}
