//! The lines of a certificate, as a search writes them.

ghost use Rattle.std.specs.Prelude.{◌≡◌, ◌<◌, [], Some, map, length, slice_get, IfOk};
ghost use Rattle.aud_order.specs.Shapes.{objects_of, history_of};
ghost use Rattle.cert_accept.specs.Acceptance.{prefix_in, IsAcceptedLine, IsAccepted};
ghost use Rattle.aud_cert.specs.Recorded.{IsLonger};

use aud_event::{Dup, OutOfMemory};
use aud_order::Shape;
use aud_witness::{Decision, Prefix};
use cert_accept::{Cert, CertLine};
use search_memo::{Recorder, RefutedBy};
use std::alloc::{Allocator, Global};
use std::marker::Model;

/// Lines of which each is accepted after those before it. A prefix that was refuted is named by the number of its line.
#[derive(Drop)]
pub(crate) struct Lines<'a, A: Allocator + Copy = Global> {
    alloc: A,
    shape: &'a Shape<A>,
    lines: Vec<CertLine<A>, A>,
}

impl<'a, A: Allocator + Copy> Model for Lines<'a, A> {
    ghost use Rattle.std.specs.Prelude.{[]};
    ghost use Rattle.aud_order.specs.Shapes.{objects_of, history_of};
    ghost use Rattle.cert_accept.specs.Acceptance.{AreAccepted};
    ghost use Rattle.aud_cert.specs.Recorded.{LinesOf};

    ghost Value = { LinesOf A };

    ghost view = { λ l. record { shape = l.shape.now; lines = l.lines.items } };

    ghost invariant = { λ l. AreAccepted (objects_of l.shape.now) (history_of l.shape.now) [] l.lines.items };
}

impl<'a, A: Allocator + Copy> Lines<'a, A> {
    /// No lines. It does not allocate.
    pub(crate) fn none(alloc: A, shape: &'a Shape<A>) -> Lines<'a, A>
        ensures { result ≡ record { shape = shape.entry.now; lines = [] } }
    {
        Lines {
            alloc,
            shape,
            lines: Vec::new(alloc),
        }
    }

    /// Adds a line that is accepted after the others, and answers its number.
    fn add(&mut self, line: CertLine<A>) -> Result<usize, OutOfMemory>
        requires { IsAcceptedLine (objects_of self.old.shape) (history_of self.old.shape) (map prefix_in self.old.lines) line }
        ensures noted { IfOk result (λ note. slice_get (map prefix_in self.new.lines) note ≡ Some (prefix_in line)) }
        ensures grows { IsLonger self.old self.new }
    {
        let note = self.lines.len();
        self.lines.push(line)?;
        Ok(note)
    }

    /// A copy of the prefix of the line of the number.
    fn prefix(&self, note: usize) -> Result<Prefix<A>, OutOfMemory>
        requires { note < length self.now.lines }
        ensures { IfOk result (λ prefix. slice_get (map prefix_in self.now.lines) note ≡ Some prefix) }
    {
        self.lines[note].prefix().dup()
    }

    /// The certificate whose last line is the one of the number, which refutes the empty prefix.
    pub(crate) fn up_to(self, last: usize) -> Cert<A>
        requires { slice_get (map prefix_in self.lines) last ≡ Some [] }
        ensures { IsAccepted (objects_of self.entry.shape) (history_of self.entry.shape) result.lines.items }
    {
        let mut lines = self.lines;
        let _few = lines.len();
        lines.truncate(last + 1);
        Cert { lines }
    }
}

impl<'a, A: Allocator + Copy> Recorder<usize, A> for Lines<'a, A> {
    ghost use Rattle.std.specs.Prelude.{◌≡◌, Some, map, slice_get, IfOk};
    ghost use Rattle.search_memo.specs.Recorders.{IsHearable, IsReason};
    ghost use Rattle.cert_accept.specs.Acceptance.{prefix_in};
    ghost use Rattle.aud_cert.specs.Recorded.{IsLonger, noted_later, shape_later, longer_itself, longer_onward};

    ghost is_for = { λ r shape. r.shape ≡ shape };

    ghost noted = { λ r note p. slice_get (map prefix_in r.lines) note ≡ Some p };

    ghost grows = { λ r s. IsLonger r s };

    fn records_nothing(&self) -> bool {
        false
    }

    fn note(&mut self, prefix: &[Decision], reason: RefutedBy<usize>) -> Result<usize, OutOfMemory>
        requires { IsHearable (λ shape. self.old.shape ≡ shape) prefix.now
            (λ shape. IsReason (λ note p. slice_get (map prefix_in self.old.lines) note ≡ Some p) shape prefix.now reason) }
        ensures noted { IfOk result (λ note. slice_get (map prefix_in self.new.lines) note ≡ Some prefix.now) }
        ensures grows { IsLonger self.old self.new }
    {
        let own = Prefix::copy_of(self.alloc, prefix)?;
        match reason {
            RefutedBy::Kids => self.add(CertLine::Kids(own)),
            RefutedBy::Silent(decision) => self.add(CertLine::Silent(own, decision)),
            RefutedBy::Same(note) => {
                let other = self.prefix(note)?;
                self.add(CertLine::Same(own, other))
            }
        }
    }

    ghost noted_stays = { λ r s note p on was. noted_later r s note p on was };

    ghost still_for = { λ r s shape on was. shape_later r s shape on was };

    ghost grows_from_itself = { λ r. longer_itself r };

    ghost grows_onward = { λ r s t first second. longer_onward r s t first second };
}
