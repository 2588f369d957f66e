//! What one thread has of a node: a seat, a reader and a view, which never goes back.

ghost use Rattle.std.specs.Prelude.{[], ◌≡◌, ◌≢◌, ◌+◌, ◌^◌, ◌<◌, ◌≤◌, ◌↔◌, length, IfOk, IfErr, IsTrue};
ghost use mathlib.Core.List.{IsPrefix};
ghost use Rattle.aud_know.specs.Verdicts.{IsVerdict};
ghost use Rattle.aud_node.specs.Logs.{own, state_of, IsKnownIn, SaysNotOpaque, SaysOpaque};
ghost use Rattle.aud_node.specs.Meanings.{first_pass, GoesOn};

use crate::book::Fleet;
use crate::fault::StartFault;
use crate::published::{Held, Named, Published, Reads};
use aud_event::OutOfMemory;
use aud_know::{Knowledge, Verdict};
use aud_witness::Prefix;
use core::mem::replace_with;
use left_right::reader::{Factory, Reader};
use std::marker::Model;
use std::sync::Arc;

/// A node's knowledge at one moment.
#[derive(Drop)]
pub struct Packet {
    pub known: Arc<Knowledge>,
}

/// A seat at a node. Contracts see the node's number, the seat, how many of its offers were answered Ok, and its view: the
/// offers that it has seen.
#[derive(Drop)]
pub struct Pass<J: Fleet> {
    pub(crate) seat: u32,
    pub(crate) offers: u64,
    pub(crate) reader: Reader<Published, (), Named<J>>,
    pub(crate) held: Held<J>,
}

impl<J: Fleet> Model for Pass<J> {
    ghost use Rattle.aud_node.specs.Meanings.{PassOf};

    ghost Value = { PassOf };

    ghost use Rattle.std.specs.Prelude.{◌≤◌, length};
    ghost use Rattle.aud_node.specs.Logs.{own};

    ghost view = { λ p. record { number = p.held.latest.front.number; seat = p.seat; offers = p.offers; view = p.held.latest.front.log } };

    ghost invariant = { λ p. p.offers ≤ length (own p.seat p.held.latest.front.log) };
}

// What was published last, if it can be copied. It waits for nobody.
fn peeked<J: Fleet>(
    reader: Reader<Published, (), Named<J>>,
) -> (Reader<Published, (), Named<J>>, Option<Held<J>>) {
    match reader.enter_as::<Reads<J>>() {
        Ok(reading) => {
            let found = reading.get().copy();
            let reader = reading.leave();
            match found {
                Ok(found) => (reader, Some(Held::new(found))),
                Err(_) => (reader, None),
            }
        }
        Err(reader) => (reader, None),
    }
}

impl<J: Fleet> Pass<J> {
    /// A pass with the empty view.
    pub(crate) fn fresh(
        factory: &Factory<Published, (), Named<J>>,
        held: &Held<J>,
        seat: u32,
    ) -> Result<Pass<J>, StartFault>
        requires { held.now.latest.front.log ≡ [] }
        ensures pass { IfOk result (λ p. p ≡ first_pass held.now.latest.front.number seat) }
        ensures fault { IfErr result (λ e. e ≢ StartFault.SeatRange) }
    {
        let Ok(reader) = factory.reader() else {
            return Err(StartFault::NoPlace);
        };
        let Ok(held) = held.copy() else {
            return Err(StartFault::OutOfMemory);
        };
        Ok(Pass {
            seat,
            offers: 0,
            reader,
            held,
        })
    }

    /// The seat, from 0. It does not allocate.
    pub fn seat(&self) -> u32
        ensures { result ≡ self.now.seat }
    {
        self.seat
    }

    /// How many of its offers were answered Ok. It does not allocate.
    pub fn offers(&self) -> u64
        ensures { result ≡ self.now.offers }
    {
        self.offers
    }

    /// The number of its node. It does not allocate.
    pub fn number(&self) -> u32
        ensures { result ≡ self.now.number }
    {
        self.held.latest.front.number()
    }

    // Takes in what was found, where it is of this node and goes on from the view.
    #[tactic(auto, using(crate::proofs::Own::mine_kept))]
    fn see(&mut self, found: Held<J>)
        ensures { GoesOn self.old self.new }
    {
        if self.held.begins(&found) {
            self.held = found;
        }
    }

    /// Takes in a view that goes on from its own.
    #[tactic(auto, using(crate::proofs::Own::mine_kept))]
    pub(crate) fn catch_up(&mut self, held: Held<J>)
        requires view { IsPrefix self.old.view held.latest.front.log }
        requires number { held.latest.front.number ≡ self.old.number }
        ensures goes_on { GoesOn self.old self.new }
        ensures view { self.new.view ≡ held.latest.front.log }
    {
        self.held = held;
    }

    /// Takes in its own offer.
    pub(crate) fn gain(&mut self, held: Held<J>)
        requires counted { self.old.offers + 1 ≤ length (own self.old.seat held.latest.front.log) }
        requires small { length held.latest.front.log < 2 ^ 62 }
        ensures same { (self.new.number ≡ held.latest.front.number) × (self.new.seat ≡ self.old.seat) }
        ensures offers { self.new.offers ≡ self.old.offers + 1 }
        ensures view { self.new.view ≡ held.latest.front.log }
    {
        self.held = held;
        self.offers += 1;
    }

    // Looks at what was published last. It waits for nobody.
    #[tactic(auto, using(crate::proofs::Own::mine_kept))]
    fn look(&mut self)
        ensures { GoesOn self.old self.new }
    {
        let found = replace_with(&mut self.reader, (), |reader, ()| peeked(reader));
        if let Some(found) = found {
            self.see(found);
        }
    }

    /// The verdict on the new view.
    pub(crate) fn verdict(&mut self) -> Result<Verdict, OutOfMemory>
        ensures view { GoesOn self.old self.new }
        ensures verdict { IfOk result (λ v. IsVerdict (state_of (J.plan self.new.number) self.new.view) v) }
        ensures opaque { IfOk result (λ v. SaysOpaque (state_of (J.plan self.new.number) self.new.view) v) }
        ensures not_opaque { IfOk result (λ v. SaysNotOpaque (state_of (J.plan self.new.number) self.new.view) v) }
    {
        self.look();
        self.held.latest.known.verdict()
    }

    /// Whether a beginning of the prefix is refuted in the new view.
    pub(crate) fn knows(&mut self, prefix: &Prefix) -> bool
        ensures view { GoesOn self.old self.new }
        ensures knows { IsTrue result ↔ IsKnownIn (J.plan self.new.number) self.new.view prefix.now }
    {
        self.look();
        self.held.latest.known.knows(prefix)
    }

    /// The knowledge of the new view.
    pub(crate) fn snapshot(&mut self) -> Result<Packet, OutOfMemory>
        ensures view { GoesOn self.old self.new }
        ensures knows { IfOk result (λ p. p.known.value ≡ state_of (J.plan self.new.number) self.new.view) }
    {
        self.look();
        let known = Arc::try_clone(&self.held.latest.known)?;
        Ok(Packet { known })
    }
}
