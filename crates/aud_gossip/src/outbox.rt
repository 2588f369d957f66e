//! Where a node posts what it knows.

ghost use Rattle.std.specs.Prelude.{◌≡◌, ◌≢◌, ◌≤◌, ◌↔◌, Some, None, IfOk, OnOk, OnErr, vec_len};
ghost use Rattle.std.specs.Result.{IsErrOf};
ghost use Rattle.aud_gossip.specs.Deltas.{IsDelta, IsOfTaken, joined};

use crate::fault::SinceFault;
use aud_event::OutOfMemory;
use aud_know::laws::knowledge_is_norm;
use aud_know::{KnowFault, Knowledge};
use aud_node::Packet;
use crossbeam_channel::Sender;
use std::alloc::Global;
use std::marker::Model;
use std::sync::{Arc, Wait};

/// What a packet has that the packets before it had not. It is a packet to be posted.
#[derive(Drop)]
pub struct Delta {
    pub packet: Packet,
}

/// The senders to other nodes, at most 64, and the join of the packets that `since` took. Contracts see how many senders
/// there are, and that join.
#[derive(Drop)]
pub struct Outbox {
    senders: Vec<Sender<Packet>>,
    taken: Option<Knowledge>,
}

impl Model for Outbox {
    ghost use Rattle.aud_gossip.specs.Deltas.{OutboxOf};

    ghost Value = { OutboxOf };

    ghost use Rattle.std.specs.Prelude.{◌≤◌, vec_len};

    ghost view = { λ o. record { senders = vec_len o.senders; taken = o.taken } };

    ghost invariant = { λ o. vec_len o.senders ≤ 64 };
}

// The first packet, whole, and what is known then.
fn first(packet: &Packet) -> Result<(Knowledge, Delta), OutOfMemory>
    ensures taken { IfOk result (λ made. made.0 ≡ packet.now.known.value) }
    ensures delta { IfOk result (λ made. made.1.packet.known.value ≡ packet.now.known.value) }
{
    let taken = packet.known.copy()?;
    let known = Arc::try_clone(&packet.known)?;
    let packet = Packet { known };
    Ok((taken, Delta { packet }))
}

// What a packet has beyond those before it, and what is known then.
fn later(
    alloc: Global,
    taken: &Knowledge,
    packet: &Packet,
) -> Result<(Knowledge, Delta), SinceFault>
    ensures taken { IfOk result (λ made. Some made.0 ≡ joined (Some taken.now) packet.now.known.value) }
    ensures joins { IfOk result (λ made. Some made.0 ≡ joined (Some taken.now) made.1.packet.known.value) }
    ensures delta { IfOk result (λ made. IsDelta (Some taken.now) packet.now.known.value made.1.packet.known.value) }
    ensures mismatch { IsErrOf result SinceFault.PlanMismatch ↔ (taken.now.plan ≢ packet.now.known.value.plan) }
{
    let news = match packet.known.beyond(taken) {
        Ok(news) => news,
        Err(KnowFault::PlanMismatch) => return Err(SinceFault::PlanMismatch),
        Err(KnowFault::OutOfMemory) => return Err(SinceFault::OutOfMemory),
    };
    let all = both(taken, packet)?;
    let delta = delta_of(alloc, news)?;
    Ok((all, delta))
}

fn delta_of(alloc: Global, news: Knowledge) -> Result<Delta, OutOfMemory>
    ensures { IfOk result (λ d. d.packet.known.value ≡ news) }
{
    let known = Arc::new(alloc, news)?;
    let packet = Packet { known };
    Ok(Delta { packet })
}

// What is known by those before and by the packet, which is of their plan.
fn both(taken: &Knowledge, packet: &Packet) -> Result<Knowledge, OutOfMemory>
    ensures { IfOk result (λ all. Some all ≡ joined (Some taken.now) packet.now.known.value) }
{
    knowledge_is_norm();
    let _facts = taken.facts();
    let mut all = taken.copy()?;
    match all.join(&packet.known) {
        Ok(()) => Ok(all),
        Err(_) => Err(OutOfMemory),
    }
}

impl Outbox {
    /// An outbox with these senders, of which there may be none. No packet was taken. It does not allocate.
    pub fn new(senders: Vec<Sender<Packet>>) -> Outbox
        requires { vec_len senders ≤ 64 }
        ensures { result ≡ record { senders = vec_len senders; taken = None } }
    {
        Outbox {
            senders,
            taken: None,
        }
    }

    /// Drops the senders that it had and has these from now on. What was taken stays. It does not allocate.
    pub fn reopen(&mut self, senders: Vec<Sender<Packet>>)
        requires { vec_len senders ≤ 64 }
        ensures { self.new ≡ record { senders = vec_len senders; taken = self.old.taken } }
    {
        self.senders = senders;
    }

    /// Takes the packet, and gives what of it is to be posted: of the first packet all, of each later one what it has beyond
    /// those before it. A refused call leaves the outbox.
    pub fn since(&mut self, packet: &Packet) -> Result<Delta, SinceFault>
        ensures delta { IfOk result (λ d. IsDelta self.old.taken packet.now.known.value d.packet.known.value) }
        ensures taken { OnOk result (self.new.taken ≡ joined self.old.taken packet.now.known.value) }
        ensures joins { IfOk result (λ d. self.new.taken ≡ joined self.old.taken d.packet.known.value) }
        ensures senders { self.new.senders ≡ self.old.senders }
        ensures mismatch { IsErrOf result SinceFault.PlanMismatch ↔ ¬ (IsOfTaken self.old.taken packet.now.known.value) }
        ensures err { OnErr result (self.new ≡ self.old) }
    {
        let (taken, delta) = match &self.taken {
            None => first(packet)?,
            Some(taken) => later(*self.senders.allocator(), taken, packet)?,
        };
        self.taken = Some(taken);
        Ok(delta)
    }

    /// Sends the packet to each in turn, and answers how many sends answered Ok. The packets share the knowledge. It errs
    /// only where the knowledge has all the owners that it may have; what was sent by then stays sent.
    pub fn post<R: Wait>(&self, rt: &R, packet: &Packet) -> Result<u32, OutOfMemory>
        ensures { IfOk result (λ n. n ≤ self.now.senders) }
    {
        let mut sent = 0u32;
        for sender in &self.senders {
            let known = Arc::try_clone(&packet.known)?;
            if sender.send(rt, Packet { known }).is_ok() {
                sent += 1;
            }
        }
        Ok(sent)
    }
}
