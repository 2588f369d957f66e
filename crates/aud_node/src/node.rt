//! The node that threads share.

ghost use Rattle.std.specs.Prelude.{◌≡◌, ◌↔◌, ◌+◌, ◌<◌, ◌++◌, ◌∷◌, [], map, All, IfOk, IfErr, OnOk, OnErr, IsTrue};
ghost use Rattle.std.specs.Result.{IsErrOf};
ghost use Rattle.aud_know.specs.Verdicts.{IsVerdict};
ghost use Rattle.aud_node.specs.Logs.{state_of, upto, written_of, IsKnownIn, Offered, SaysNotOpaque, SaysOpaque};
ghost use Rattle.aud_node.specs.Meanings.{first_pass, mine, node_of, unseen, Agrees, GoesOn, HasSeen, IsOfNode, SeesOwnOffers};
ghost use Rattle.aud_node.specs.Faults.{IsSeats, IsOfferFault, IsReadFault, IsMeetFault, IsCloseFault, MayClose, MayMeet, MayOffer};

use crate::book::{Fleet, Front, Head, open};
use crate::desk::{Desk, wait_forever};
use crate::fault::{CloseFault, OfferFault, ReadFault, StartFault};
use crate::pass::{Packet, Pass};
use crate::published::{Held, Published};
use crate::seats::{foreign, missing, seated};
use aud_event::{OutOfMemory, Plan};
use aud_know::{Item, Knowledge, Verdict};
use aud_witness::Prefix;
use std::alloc::Global;
use std::marker::{Model, PhantomData};
use std::sync::{Arc, Mutex, Wait};

/// A new node's history, which no fleet names yet.
#[derive(Drop)]
pub struct Opened {
    head: Head,
    front: Front,
}

impl Model for Opened {
    ghost use Rattle.aud_node.specs.Meanings.{OpenedOf};

    ghost Value = { OpenedOf };

    ghost use Rattle.std.specs.Prelude.{◌≡◌};
    ghost use Rattle.aud_node.specs.Meanings.{unseen};

    ghost view = { λ o. record { number = o.head.number; book = o.head.word.book } };

    ghost invariant = { λ o. o.front ≡ unseen o.head.number o.head.word.book };
}

impl Opened {
    /// Opens the history of the node of the number. It does not allocate. Different nodes have different numbers.
    pub fn new(number: u32) -> Opened
        ensures { result.number ≡ number }
    {
        let (head, front) = open(number);
        Opened { head, front }
    }
}

// A node's history and plan, which are those that the fleet has for its number.
#[derive(Drop)]
struct Home<J: Fleet> {
    head: Head,
    plan: Arc<Plan>,
    fleet: PhantomData<J>,
    ghost named: { head.word.book ≡ J.book head.number },
    ghost planned: { plan.value ≡ J.plan head.number },
}

/// A node whose desk lies under the writer's lock. Contracts see its number, its plan and how many seats it has.
#[derive(Drop)]
pub struct Node<J: Fleet, D: Drop> {
    home: Home<J>,
    seats: u32,
    desk: Mutex<D>,
}

/// A node that runs. `S` is the handle by which it waits for its readers.
pub type Running<J, S> = Node<J, Desk<J, S>>;

impl<J: Fleet, D: Drop> Model for Node<J, D> {
    ghost use Rattle.aud_node.specs.Meanings.{NodeOf};

    ghost Value = { NodeOf };

    ghost view = { λ n. record { number = n.home.head.number; plan = n.home.plan.value; seats = n.seats } };
}

/// What waits for nobody: no type here has the leave to wait.
impl<J: Fleet, D: Drop> Node<J, D> {
    /// The node's number.
    pub fn number(&self) -> u32
        ensures { result ≡ self.now.number }
    {
        self.home.head.number
    }

    /// The plan. It does not allocate.
    pub fn plan(&self) -> &Plan
        ensures { result.now ≡ self.now.plan }
    {
        &self.home.plan
    }

    /// The verdict on the pass's new view.
    pub fn verdict(&self, pass: &mut Pass<J>) -> Result<Verdict, ReadFault>
        ensures view { GoesOn pass.old pass.new }
        ensures verdict { IfOk result (λ v. IsVerdict (state_of self.now.plan pass.new.view) v) }
        ensures opaque { IfOk result (λ v. SaysOpaque (state_of self.now.plan pass.new.view) v) }
        ensures not_opaque { IfOk result (λ v. SaysNotOpaque (state_of self.now.plan pass.new.view) v) }
        ensures read { OnOk result (IsOfNode self.now pass.old) }
        ensures fault { IfErr result (λ e. IsReadFault self.now pass.old e) }
        ensures wrong { IsErrOf result ReadFault.WrongNode → pass.new ≡ pass.old }
    {
        if pass.number() != self.home.head.number {
            return Err(ReadFault::WrongNode);
        }
        match pass.verdict() {
            Ok(verdict) => Ok(verdict),
            Err(_) => Err(ReadFault::OutOfMemory),
        }
    }

    /// Whether a beginning of the prefix is refuted in the pass's new view; the prefix itself counts. It does not allocate, and
    /// errs by `WrongNode` alone.
    pub fn knows(&self, pass: &mut Pass<J>, prefix: &Prefix) -> Result<bool, ReadFault>
        ensures view { GoesOn pass.old pass.new }
        ensures knows { IfOk result (λ b. IsTrue b ↔ IsKnownIn self.now.plan pass.new.view prefix.now) }
        ensures read { OnOk result (IsOfNode self.now pass.old) }
        ensures fault { IfErr result (λ e. (e ≡ ReadFault.WrongNode) × IsReadFault self.now pass.old e) }
        ensures wrong { OnErr result (pass.new ≡ pass.old) }
    {
        if pass.number() != self.home.head.number {
            return Err(ReadFault::WrongNode);
        }
        Ok(pass.knows(prefix))
    }

    /// The knowledge of the pass's new view.
    pub fn snapshot(&self, pass: &mut Pass<J>) -> Result<Packet, ReadFault>
        ensures view { GoesOn pass.old pass.new }
        ensures known { IfOk result (λ p. p.known.value ≡ state_of self.now.plan pass.new.view) }
        ensures read { OnOk result (IsOfNode self.now pass.old) }
        ensures fault { IfErr result (λ e. IsReadFault self.now pass.old e) }
        ensures wrong { IsErrOf result ReadFault.WrongNode → pass.new ≡ pass.old }
    {
        if pass.number() != self.home.head.number {
            return Err(ReadFault::WrongNode);
        }
        match pass.snapshot() {
            Ok(packet) => Ok(packet),
            Err(_) => Err(ReadFault::OutOfMemory),
        }
    }
}

impl<J: Fleet, S: Wait + Drop> Node<J, Desk<J, S>> {
    /// Starts a node of the plan with so many seats, 1 to 32, and gives the pass of each. What it is given is of the fleet.
    pub fn start(
        rt: S,
        alloc: Global,
        opened: Opened,
        plan: Plan,
        seats: u32,
    ) -> Result<(Running<J, S>, Vec<Pass<J>>), StartFault>
        requires named { opened.book ≡ J.book opened.number }
        requires planned { plan ≡ J.plan opened.number }
        ensures node { IfOk result (λ t. t.0 ≡ node_of opened plan seats) }
        ensures passes { IfOk result (λ t. t.1.items ≡ map (first_pass opened.number) (upto seats)) }
        ensures range { IsErrOf result StartFault.SeatRange ↔ ¬ (IsSeats seats) }
    {
        if seats == 0 || seats > 32 {
            return Err(StartFault::SeatRange);
        }
        let Ok((home, ours, theirs)) = at_home(alloc, opened, plan) else {
            return Err(StartFault::OutOfMemory);
        };
        let Ok(desk) = Desk::new(rt, alloc, ours, seats) else {
            return Err(StartFault::OutOfMemory);
        };
        let passes = seated(alloc, desk.factory(), &theirs, seats)?;
        let node = Node {
            home,
            seats,
            desk: Mutex::new(desk),
        };
        Ok((node, passes))
    }

    /// Offers an item. It waits for the writer's lock and for readers. On a fault nothing is published, and the item is handed
    /// back.
    pub fn offer<R: Wait>(
        &self,
        rt: &R,
        alloc: Global,
        pass: &mut Pass<J>,
        item: Item,
    ) -> Result<(), (Item, OfferFault)>
        ensures view { OnOk result (Offered pass.old.view pass.new.view pass.old.seat item) }
        ensures mine { OnOk result (mine pass.new ≡ mine pass.old ++ item ∷ []) }
        ensures own { OnOk result (SeesOwnOffers pass.new) }
        ensures offers { OnOk result (pass.new.offers ≡ pass.old.offers + 1) }
        ensures same { (pass.new.number ≡ pass.old.number) × (pass.new.seat ≡ pass.old.seat) }
        ensures taken { OnOk result (MayOffer self.now pass.old item) }
        ensures fault { IfErr result (λ e. IsOfferFault self.now pass.old item e.1) }
        ensures back { IfErr result (λ e. (e.0 ≡ item) × (pass.new ≡ pass.old)) }
    {
        if !item.is_of(&self.home.plan) {
            return Err((item, OfferFault::PlanMismatch));
        }
        if pass.number() != self.home.head.number {
            return Err((item, OfferFault::WrongNode));
        }
        let mut desk = self.desk.lock(rt);
        if !desk.agrees(pass) {
            drop(desk);
            wait_forever(rt);
            unreachable!();
        }
        match desk.offer(alloc, &self.home.head, pass, item) {
            Ok(()) => Ok(()),
            Err(item) => Err((item, OfferFault::OutOfMemory)),
        }
    }

    /// Each of the two views then begins with both old ones. It waits for the writer's lock.
    pub fn meet<R: Wait>(
        &self,
        rt: &R,
        one: &mut Pass<J>,
        other: &mut Pass<J>,
    ) -> Result<(), ReadFault>
        ensures one { GoesOn one.old one.new }
        ensures other { GoesOn other.old other.new }
        ensures both { OnOk result (HasSeen one.new other.old × HasSeen other.new one.old) }
        ensures own { OnOk result (SeesOwnOffers one.new × SeesOwnOffers other.new) }
        ensures met { OnOk result (MayMeet self.now one.old other.old) }
        ensures fault { IfErr result (λ e. IsMeetFault self.now one.old other.old e) }
        ensures same { OnErr result ((one.new ≡ one.old) × (other.new ≡ other.old)) }
    {
        if one.number() != self.home.head.number || other.number() != self.home.head.number {
            return Err(ReadFault::WrongNode);
        }
        let desk = self.desk.lock(rt);
        if !desk.agrees(one) || !desk.agrees(other) {
            drop(desk);
            wait_forever(rt);
            unreachable!();
        }
        match desk.meet(one, other) {
            Ok(()) => Ok(()),
            Err(_) => Err(ReadFault::OutOfMemory),
        }
    }

    /// Ends the node: its log, and the knowledge of it. It waits for the readers that are reading. What is refused gives
    /// all back.
    pub fn close<R: Wait>(
        self,
        rt: &R,
        passes: Vec<Pass<J>>,
    ) -> Result<Closed, (Running<J, S>, Vec<Pass<J>>, CloseFault)>
        ensures passes { IfOk result (λ c. All (Agrees (written_of c.offered.items)) passes.items) }
        ensures others { IfOk result (λ c. All (λ e. e.0 < self.seats) (written_of c.offered.items)) }
        ensures known { IfOk result (λ c. c.known ≡ state_of self.plan (written_of c.offered.items)) }
        ensures closed { OnOk result (MayClose self passes.items) }
        ensures fault { IfErr result (λ e. IsCloseFault self passes.items e.2) }
        ensures back { IfErr result (λ e. (e.0 ≡ self) × (e.1 ≡ passes)) }
    {
        let number = self.home.head.number;
        if let Some(seat) = missing(number, self.seats, &passes) {
            return Err((self, passes, CloseFault::PassMissing(seat)));
        }
        if let Some(index) = foreign(number, &passes) {
            return Err((self, passes, CloseFault::ForeignPass(index)));
        }
        let Node { home, seats, desk } = self;
        match finished(rt, desk.into_inner(), &home, seats, &passes) {
            Ok(closed) => Ok(closed),
            Err(desk) => {
                let node = Node {
                    home,
                    seats,
                    desk: Mutex::new(desk),
                };
                Err((node, passes, CloseFault::OutOfMemory))
            }
        }
    }
}

/// What a closed node leaves: its log, with the seat of each item, in the order of the publishes; and the knowledge of it.
#[derive(Drop)]
pub struct Closed {
    pub offered: Vec<(u32, Arc<Item>)>,
    pub known: Knowledge,
}

// What the desk leaves, where memory is had. Else the desk, as it is.
fn finished<R: Wait, J: Fleet, S: Wait + Drop>(
    rt: &R,
    desk: Desk<J, S>,
    home: &Home<J>,
    seats: u32,
    passes: &[Pass<J>],
) -> Result<Closed, Desk<J, S>>
    ensures passes { IfOk result (λ c. All (Agrees (written_of c.offered.items)) passes.now) }
    ensures others { IfOk result (λ c. All (λ e. e.0 < seats) (written_of c.offered.items)) }
    ensures known { IfOk result (λ c. c.known ≡ state_of home.now.plan.value (written_of c.offered.items)) }
    ensures back { IfErr result (λ d. d ≡ desk) }
{
    if desk.counts.len() != seats as usize
        || desk.held.latest.front.number() != home.head.number
        || !desk.agrees_with_all(passes)
    {
        wait_forever(rt);
        unreachable!();
    }
    match desk.known() {
        Ok(known) => Ok(Closed {
            offered: desk.end(),
            known,
        }),
        Err(_) => Err(desk),
    }
}

// The history and the plan of the fleet, and nothing known, twice.
fn at_home<J: Fleet>(
    alloc: Global,
    opened: Opened,
    plan: Plan,
) -> Result<(Home<J>, Held<J>, Held<J>), OutOfMemory>
    requires named { opened.book ≡ J.book opened.number }
    requires planned { plan ≡ J.plan opened.number }
    ensures number { IfOk result (λ t. t.0.head.number ≡ opened.number) }
    ensures plan { IfOk result (λ t. t.0.plan.value ≡ plan) }
    ensures ours { IfOk result (λ t. t.1.latest.front ≡ unseen opened.number opened.book) }
    ensures theirs { IfOk result (λ t. t.2.latest.front ≡ unseen opened.number opened.book) }
{
    let Opened { head, front } = opened;
    let plan = Arc::new(alloc, plan)?;
    let known = Knowledge::empty(alloc, Arc::try_clone(&plan)?)?;
    let known = Arc::new(alloc, known)?;
    let ours = Held::new(Published { known, front });
    let theirs = ours.copy()?;
    let home = Home {
        head,
        plan,
        fleet: PhantomData,
    };
    Ok((home, ours, theirs))
}
