//! Whether a certificate is accepted.

ghost use Rattle.std.specs.Prelude.{◌≡◌, ◌↔◌, [], map, IfOk, IfSome, OnOk, IsTrue};
ghost use Rattle.aud_witness.specs.Orders.{Refuted};
ghost use Rattle.aud_order.specs.Shapes.{objects_of, history_of};
ghost use Rattle.cert_earlier.specs.OfShapes.{AreGoodFor};
ghost use Rattle.cert_earlier.specs.Landings.{IsLandingOf};
ghost use Rattle.cert_accept.specs.Acceptance.{prefix_in, EndsEmpty, JudgesLines};
ghost use Rattle.cert_accept.specs.OfShapes.{JudgesLineFor, StaysAtKids};

use crate::cert::{Cert, CertLine};
use crate::laws::accepted_is_refuted;
use aud_event::OutOfMemory;
use aud_order::{Cursor, Shape};
use bumpalo::Bump;
use cert_earlier::{Earlier, Landing, go_to, has_kids, has_same, has_silent};
use std::alloc::Allocator;

/// Whether the line is accepted after those whose prefixes are the earlier ones. The cursors may stand anywhere; each goes on
/// from what its prefix and the next have in common.
fn accepts<'c, A: Allocator + Copy, B: Allocator>(
    alloc: A,
    shape: &Shape<A>,
    cursor: &mut Cursor<A>,
    other: &mut Cursor<A>,
    earlier: &Earlier<'c, A>,
    line: &'c CertLine<B>,
) -> Result<bool, OutOfMemory>
    requires cursor { cursor.old.shape ≡ shape.now }
    requires other { other.old.shape ≡ shape.now }
    requires earlier { earlier.now.shape ≡ shape.now }
    requires good { AreGoodFor shape.now earlier.now.prefixes }
    ensures judged { IfOk result (JudgesLineFor shape.now earlier.now.prefixes line.now) }
    ensures cursor { OnOk result (cursor.new.shape ≡ shape.now) }
    ensures there { IfOk result (λ good. IsTrue good → StaysAtKids line.now cursor.new.path) }
    ensures other { OnOk result (other.new.shape ≡ shape.now) }
{
    if !go_to(cursor, line.prefix().decisions())? {
        return Ok(false);
    }
    match line {
        CertLine::Kids(prefix) => has_kids(alloc, cursor, earlier, prefix.decisions()),
        CertLine::Silent(prefix, decision) => {
            has_silent(shape, cursor, earlier, prefix.decisions(), *decision)
        }
        CertLine::Same(_, prefix) => has_same(cursor, other, earlier, prefix.decisions()),
    }
}

/// Where the prefix of the line leads, if that is to be kept: of a line whose kids refute it, where the cursor stands at it.
fn landing_of<A: Allocator + Copy, B: Allocator>(
    cursor: &Cursor<A>,
    line: &CertLine<B>,
) -> Option<Landing>
    requires { StaysAtKids line.now cursor.now.path }
    ensures { IfSome result (IsLandingOf cursor.now.shape (prefix_in line.now)) }
{
    match line {
        CertLine::Kids(_) => Landing::of(cursor),
        CertLine::Silent(_, _) | CertLine::Same(_, _) => None,
    }
}

/// Whether there is a last line, and its prefix is empty.
fn is_last_empty<A: Allocator>(lines: &[CertLine<A>]) -> bool
    ensures { IsTrue result ↔ EndsEmpty (map prefix_in lines.now) }
{
    match lines.last() {
        None => false,
        Some(line) => line.prefix().decisions().is_empty(),
    }
}

/// Whether each of the lines, of which the last has an empty prefix, is accepted after those before it.
fn are_accepted<'c, A: Allocator + Copy, B: Allocator>(
    alloc: A,
    shape: &Shape<A>,
    cursor: &mut Cursor<A>,
    other: &mut Cursor<A>,
    earlier: &mut Earlier<'c, A>,
    lines: &'c [CertLine<B>],
) -> Result<bool, OutOfMemory>
    requires cursor { cursor.old.shape ≡ shape.now }
    requires other { other.old.shape ≡ shape.now }
    requires earlier { earlier.old.shape ≡ shape.now }
    requires none { earlier.old.prefixes ≡ [] }
    requires last { EndsEmpty (map prefix_in lines.now) }
    ensures { IfOk result (JudgesLines (objects_of shape.now) (history_of shape.now) lines.now) }
{
    for line in lines {
        if !accepts(alloc, shape, cursor, other, earlier, line)? {
            return Ok(false);
        }
        let landing = landing_of(cursor, line);
        earlier.add(line.prefix().decisions(), landing)?;
    }
    Ok(true)
}

/// Whether all lines are accepted, where none came before.
fn are_accepted_from_none<A: Allocator + Copy, B: Allocator>(
    alloc: A,
    shape: &Shape<A>,
    cursor: &mut Cursor<A>,
    other: &mut Cursor<A>,
    lines: &[CertLine<B>],
) -> Result<bool, OutOfMemory>
    requires cursor { cursor.old.shape ≡ shape.now }
    requires other { other.old.shape ≡ shape.now }
    requires last { EndsEmpty (map prefix_in lines.now) }
    ensures { IfOk result (JudgesLines (objects_of shape.now) (history_of shape.now) lines.now) }
{
    let lists = Bump::new(alloc);
    let mut earlier = Earlier::none(alloc, shape, &lists);
    are_accepted(alloc, shape, cursor, other, &mut earlier, lines)
}

/// Whether the certificate has lines, each is accepted after those before it, and the last refutes the empty prefix.
fn is_accepted<A: Allocator + Copy, B: Allocator>(
    alloc: A,
    shape: &Shape<A>,
    cert: &Cert<B>,
) -> Result<bool, OutOfMemory>
    ensures { IfOk result (JudgesLines (objects_of shape.now) (history_of shape.now) cert.now.lines.items) }
{
    if !is_last_empty(&cert.lines) {
        return Ok(false);
    }
    let mut cursor = Cursor::root(alloc, shape)?;
    let mut other = Cursor::root(alloc, shape)?;
    are_accepted_from_none(alloc, shape, &mut cursor, &mut other, &cert.lines)
}

/// Whether the certificate is accepted: it has lines, each is accepted after those before it, and the last refutes the empty
/// prefix. Nothing in it is trusted, and where it is accepted no order shows the history.
///
/// A line costs the blocks of what its prefix has not in common with the line's before it, and a look-up for each prefix that it
/// rests on. The memory is in proportion to the certificate.
pub fn check_cert<A: Allocator + Copy, B: Allocator>(
    alloc: A,
    shape: &Shape<A>,
    cert: &Cert<B>,
) -> Result<bool, OutOfMemory>
    ensures accepted { IfOk result (JudgesLines (objects_of shape.now) (history_of shape.now) cert.now.lines.items) }
    ensures refuted { IfOk result (λ good. IsTrue good → Refuted (objects_of shape.now) (history_of shape.now) []) }
{
    accepted_is_refuted::<B>();
    let _within = shape.plan();
    let _sound = shape.history();
    is_accepted(alloc, shape, cert)
}
