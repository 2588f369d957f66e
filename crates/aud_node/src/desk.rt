//! What lies under the writer's lock: the writer, the log, and how many offers each seat has made.

ghost use Rattle.std.specs.Prelude.{◌≡◌, ◌+◌, ◌<◌, ◌^◌, ◌++◌, ◌∷◌, [], length, All, vec_len, vec_capacity, IfOk, IfErr, OnErr, OnOk, true};
ghost use Rattle.std.specs.Arc.{arc_value};
ghost use Rattle.aud_node.specs.Logs.{own, state_of, written_of, IsWider};
ghost use Rattle.aud_node.specs.Meanings.{longer, mine, Agrees, GoesOn};
ghost use Rattle.aud_node.specs.Counts.{AreSeatCounts, AreSeated, IsCounted};

use crate::book::{Fleet, Front, Head};
use crate::pass::Pass;
use crate::published::{Held, Named, Published, Reads};
use aud_event::OutOfMemory;
use aud_know::{Item, KnowFault, Knowledge};
use core::mem::replace_with;
use left_right::reader::Factory;
use left_right::writer::Writer;
use std::alloc::{AllocError, Global};
use std::sync::{Arc, Wait};

// No machine has memory for a log of so many offers.
const MOST: usize = 1 << 40;

/// The writer of the pair.
pub type PublishedWriter<J> = Writer<Published, Published, (), Named<J>>;

/// The writer, with the handle by which its drop waits for the readers.
pub struct Scribe<J: Fleet, R: Wait + Drop> {
    writer: PublishedWriter<J>,
    rt: R,
}

impl<J: Fleet, R: Wait + Drop> Drop for Scribe<J, R> {
    fn drop(self) {
        let Self { writer, rt } = self;
        writer.take(&rt);
    }
}

impl<J: Fleet, R: Wait + Drop> Scribe<J, R> {
    // Publishes the value in place of all that was published, if the writer's queue has room for it or grows.
    fn show(&mut self, next: Published) -> Result<(), AllocError>
        requires named { next.front.book ≡ J.book next.front.number }
        requires planned { next.known.value.plan ≡ J.plan next.front.number }
        ensures { OnOk result (self.new.writer.desk.shown.value.front ≡ next.front) }
    {
        replace_with(&mut self.writer, (&self.rt, next), |writer, (rt, next)| {
            shown(rt, writer, next)
        })
    }

    // Publishes what is held, twice. Then the writer's queue has room for all that it ever has at once: an offer puts one operation
    // beside the one that the last publish left there, as the second time did.
    fn make_room(&mut self, held: &Held<J>) -> Result<(), AllocError>
        ensures { OnOk result (self.new.writer.desk.shown.value.front ≡ held.now.latest.front) }
    {
        self.show(held.latest.copy()?)?;
        self.show(held.latest.copy()?)
    }
}

/// What lies under the writer's lock: the writer, what it published last, the offers in the order of their publishes, and how
/// many of them each seat has made.
#[derive(Drop)]
pub struct Desk<J: Fleet, R: Wait + Drop> {
    scribe: Scribe<J, R>,
    pub(crate) held: Held<J>,
    pub(crate) log: Vec<(u32, Arc<Item>)>,
    pub(crate) counts: Vec<u64>,
    ghost shown: { scribe.writer.desk.shown.value.front.log ≡ written_of log.items },
    ghost whole: { held.latest.front.log ≡ written_of log.items },
    ghost counted: { AreSeatCounts counts.items (written_of log.items) },
    ghost seated: { AreSeated counts.items (written_of log.items) },
}

/// Never returns. It stands where what it takes the place of can't come, and no contract of the parts says so.
pub(crate) fn wait_forever<R: Wait>(rt: &R)
    ensures { ⊥ }
{
    for _ in rt.forever() {}
    unreachable!()
}

// The history one offer longer.
fn extend<R: Wait>(rt: &R, head: &Head, front: &Front, seat: u32, item: &Arc<Item>) -> Front
    requires room { length front.now.log < 2 ^ 62 }
    requires book { front.now.book ≡ head.now.word.book }
    ensures { result ≡ longer front.now (seat, arc_value item.now) }
{
    let mut next = front.copy();
    if !next.add(head, seat, item) {
        wait_forever(rt);
        unreachable!();
    }
    next
}

// Publishes the value in place of all that was published, if the writer's queue has room for it or grows.
fn shown<R: Wait, J: Fleet>(
    rt: &R,
    mut writer: PublishedWriter<J>,
    next: Published,
) -> (PublishedWriter<J>, Result<(), AllocError>)
    requires named { next.front.book ≡ J.book next.front.number }
    requires planned { next.known.value.plan ≡ J.plan next.front.number }
    ensures { OnOk result.1 (result.0.desk.shown.value.front ≡ next.front) }
{
    match writer.append(next) {
        Ok(()) => {}
        Err(_) => return (writer, Err(AllocError)),
    }
    let (writer, done) = writer.publish_as::<Reads<J>, R>(rt);
    match done {
        Ok(()) => (writer, Ok(())),
        Err(_) => {
            wait_forever(rt);
            unreachable!();
        }
    }
}

// What is known with one item more. It shares with what was known all that stays.
fn wider(alloc: Global, known: &Knowledge, item: &Item) -> Result<Arc<Knowledge>, KnowFault>
    ensures { IfOk result (λ k. IsWider known.now item.now k.value) }
{
    let mut wider = known.copy()?;
    wider.take(item)?;
    match Arc::new(alloc, wider) {
        Ok(wider) => Ok(wider),
        Err(_) => Err(KnowFault::OutOfMemory),
    }
}

// One Knowledge for the readers, for the desk and for the pass that offers.
#[derive(Drop)]
struct Shares {
    readers: Arc<Knowledge>,
    desk: Arc<Knowledge>,
    pass: Arc<Knowledge>,
    ghost one: { (desk.value ≡ readers.value) × (pass.value ≡ readers.value) },
}

impl Shares {
    // Three owners of the Knowledge. It does not allocate.
    fn of(known: Arc<Knowledge>) -> Result<Shares, AllocError>
        ensures { IfOk result (λ s. s.readers.value ≡ known.value) }
    {
        let desk = Arc::try_clone(&known)?;
        let pass = Arc::try_clone(&known)?;
        Ok(Shares {
            readers: known,
            desk,
            pass,
        })
    }
}

// Every growth of an offer: what will be known, and the item where many can share it. What is refused gives the item back.
fn grown(alloc: Global, known: &Knowledge, item: Item) -> Result<(Shares, Arc<Item>), Item>
    ensures item { IfOk result (λ t. arc_value t.1 ≡ item) }
    ensures wider { IfOk result (λ t. IsWider known.now item t.0.readers.value) }
    ensures err { IfErr result (λ e. e ≡ item) }
{
    let Ok(known) = wider(alloc, known, &item) else {
        return Err(item);
    };
    let Ok(shares) = Shares::of(known) else {
        return Err(item);
    };
    match Arc::new(alloc, item) {
        Ok(item) => Ok((shares, item)),
        Err(failed) => Err(failed.value),
    }
}

// The history one offer longer with what that makes known, for the readers, for the desk and for the pass that offers.
#[derive(Drop)]
struct Widened<J: Fleet> {
    readers: Published,
    desk: Held<J>,
    pass: Held<J>,
}

// The history one offer longer, with what that makes known.
#[tactic(auto, using(crate::proofs::Own::state_next))]
fn widen<R: Wait, J: Fleet>(
    rt: &R,
    head: &Head,
    held: &Held<J>,
    seat: u32,
    item: &Arc<Item>,
    known: Shares,
) -> Widened<J>
    requires book { head.now.word.book ≡ J.book head.now.number }
    requires number { held.now.latest.front.number ≡ head.now.number }
    requires room { length held.now.latest.front.log < 2 ^ 62 }
    requires wider { IsWider held.now.latest.known.value (arc_value item.now) known.readers.value }
    ensures named { result.readers.front.book ≡ J.book result.readers.front.number }
    ensures planned { result.readers.known.value.plan ≡ J.plan result.readers.front.number }
    ensures readers { result.readers.front ≡ longer held.now.latest.front (seat, arc_value item.now) }
    ensures desk { result.desk.latest.front ≡ longer held.now.latest.front (seat, arc_value item.now) }
    ensures pass { result.pass.latest.front ≡ longer held.now.latest.front (seat, arc_value item.now) }
{
    let Shares {
        readers,
        desk,
        pass,
    } = known;
    let front = extend(rt, head, &held.latest.front, seat, item);
    let readers = Published {
        known: readers,
        front: front.copy(),
    };
    let desk = Published {
        known: desk,
        front: front.copy(),
    };
    let pass = Published { known: pass, front };
    Widened {
        readers,
        desk: Held::new(desk),
        pass: Held::new(pass),
    }
}

// Writes an offer down.
fn note(log: &mut Vec<(u32, Arc<Item>)>, counts: &mut Vec<u64>, seat: u32, item: Arc<Item>)
    requires seat { seat < length counts.old.items }
    requires room { vec_len log.old < vec_capacity log.old }
    requires small { length log.old.items < 2 ^ 62 }
    requires counted { AreSeatCounts counts.old.items (written_of log.old.items) }
    requires seated { AreSeated counts.old.items (written_of log.old.items) }
    ensures log { written_of log.new.items ≡ written_of log.old.items ++ (seat, arc_value item) ∷ [] }
    ensures len { length counts.new.items ≡ length counts.old.items }
    ensures counted { AreSeatCounts counts.new.items (written_of log.new.items) }
    ensures seated { AreSeated counts.new.items (written_of log.new.items) }
{
    counts[seat as usize] += 1;
    log.push_reserved((seat, item));
}

impl<J: Fleet, R: Wait + Drop> Desk<J, R> {
    /// A desk with nothing in the log.
    pub(crate) fn new(
        rt: R,
        alloc: Global,
        held: Held<J>,
        seats: u32,
    ) -> Result<Desk<J, R>, AllocError>
        requires empty { held.latest.front.log ≡ [] }
        requires seats { 0 < seats }
        ensures log { IfOk result (λ d. d.log.items ≡ []) }
        ensures counts { IfOk result (λ d. length d.counts.items ≡ seats) }
        ensures number { IfOk result (λ d. d.held.latest.front.number ≡ held.latest.front.number) }
    {
        let first = held.latest.copy()?;
        let second = held.latest.copy()?;
        let counts = Vec::from_elem(alloc, 0u64, seats as usize)?;
        let writer = Writer::new(alloc, first, second, seats as usize)?;
        let mut scribe = Scribe { writer, rt };
        scribe.make_room(&held)?;
        Ok(Desk {
            scribe,
            held,
            log: Vec::new(alloc),
            counts,
        })
    }

    /// What makes readers.
    pub(crate) fn factory(&self) -> &Factory<Published, (), Named<J>> {
        self.scribe.writer.factory()
    }

    /// Whether the log begins with the pass's view and has as many of its seat's offers as it has made.
    #[tactic(auto, using(crate::proofs::Own::mine_whole))]
    pub(crate) fn agrees(&self, pass: &Pass<J>) -> bool
        ensures number { result ≡ true → pass.now.number ≡ self.now.held.latest.front.number }
        ensures seat { result ≡ true → pass.now.seat < length self.now.counts.items }
        ensures counted { result ≡ true → IsCounted (written_of self.now.log.items) pass.now }
        ensures agrees { result ≡ true → Agrees (written_of self.now.log.items) pass.now }
    {
        let seat = pass.seat as usize;
        if seat >= self.counts.len() {
            return false;
        }
        self.counts[seat] == pass.offers && pass.held.begins(&self.held)
    }

    /// Whether it agrees with each pass.
    pub(crate) fn agrees_with_all(&self, passes: &[Pass<J>]) -> bool
        ensures { result ≡ true → All (Agrees (written_of self.now.log.items)) passes.now }
    {
        for pass in passes {
            if !self.agrees(pass) {
                return false;
            }
        }
        true
    }

    // Makes room for one offer more in the log. The writer's queue has it from the beginning.
    fn ready(&mut self) -> Result<(), AllocError>
        ensures log { self.new.log.items ≡ self.old.log.items }
        ensures counts { self.new.counts ≡ self.old.counts }
        ensures number { self.new.held.latest.front.number ≡ self.old.held.latest.front.number }
        ensures room { OnOk result (vec_len self.new.log < vec_capacity self.new.log) }
        ensures small { OnOk result (length self.new.log.items < 2 ^ 61) }
    {
        if self.log.len() >= MOST {
            return Err(AllocError);
        }
        self.log.reserve(1)
    }

    /// Publishes one offer more. Every growth comes first, and what is refused gives the item back.
    pub(crate) fn offer(
        &mut self,
        alloc: Global,
        head: &Head,
        pass: &mut Pass<J>,
        item: Item,
    ) -> Result<(), Item>
        requires book { head.now.word.book ≡ J.book head.now.number }
        requires head { self.old.held.latest.front.number ≡ head.now.number }
        requires number { pass.old.number ≡ head.now.number }
        requires seat { pass.old.seat < length self.old.counts.items }
        requires counted { IsCounted (written_of self.old.log.items) pass.old }
        requires agrees { Agrees (written_of self.old.log.items) pass.old }
        ensures same { (pass.new.number ≡ pass.old.number) × (pass.new.seat ≡ pass.old.seat) }
        ensures offers { OnOk result (pass.new.offers ≡ pass.old.offers + 1) }
        ensures view { OnOk result (pass.new.view ≡ written_of self.new.log.items) }
        ensures own { OnOk result (own pass.old.seat pass.new.view ≡ mine pass.old ++ item ∷ []) }
        ensures log { OnOk result (written_of self.new.log.items ≡ written_of self.old.log.items ++ (pass.old.seat, item) ∷ []) }
        ensures fault { IfErr result (λ e. (e ≡ item) × (pass.new ≡ pass.old)) }
        ensures unchanged { OnErr result (self.new.log.items ≡ self.old.log.items) }
    {
        let seat = pass.seat;
        if self.ready().is_err() {
            return Err(item);
        }
        let (known, item) = grown(alloc, &self.held.latest.known, item)?;
        let Widened {
            readers,
            desk,
            pass: theirs,
        } = widen(&self.scribe.rt, head, &self.held, seat, &item, known);
        if self.scribe.show(readers).is_err() {
            wait_forever(&self.scribe.rt);
            unreachable!();
        }
        self.held = desk;
        note(&mut self.log, &mut self.counts, seat, item);
        pass.gain(theirs);
        Ok(())
    }

    /// Gives both passes the whole log as their view.
    pub(crate) fn meet(&self, one: &mut Pass<J>, other: &mut Pass<J>) -> Result<(), AllocError>
        requires one { one.old.number ≡ self.now.held.latest.front.number }
        requires other { other.old.number ≡ self.now.held.latest.front.number }
        requires one_agrees { Agrees (written_of self.now.log.items) one.old }
        requires other_agrees { Agrees (written_of self.now.log.items) other.old }
        ensures goes_on { GoesOn one.old one.new × GoesOn other.old other.new }
        ensures one { OnOk result (one.new.view ≡ written_of self.now.log.items) }
        ensures other { OnOk result (other.new.view ≡ written_of self.now.log.items) }
        ensures fault { OnErr result ((one.new ≡ one.old) × (other.new ≡ other.old)) }
    {
        let first = self.held.copy()?;
        let second = self.held.copy()?;
        one.catch_up(first);
        other.catch_up(second);
        Ok(())
    }

    /// A copy of what is known.
    pub(crate) fn known(&self) -> Result<Knowledge, OutOfMemory>
        ensures { IfOk result (λ k. k ≡ state_of (J.plan self.now.held.latest.front.number) (written_of self.now.log.items)) }
    {
        self.held.latest.known.copy()
    }

    /// Ends the writer, and gives the log. It waits for the readers that are reading.
    pub(crate) fn end(self) -> Vec<(u32, Arc<Item>)>
        ensures { result.items ≡ self.log.items }
    {
        let Desk {
            scribe: _,
            held: _,
            log,
            counts: _,
        } = self;
        log
    }
}
