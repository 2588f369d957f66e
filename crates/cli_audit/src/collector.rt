//! What a node's first seat does: it offers facts, and takes in what other nodes post.

ghost use Rattle.std.specs.Prelude.{◌≡◌, ◌<◌, false, OnOk};
ghost use Rattle.aud_node.specs.Meanings.{IsOfNode};
ghost use Rattle.cli_audit.specs.Doings.{HasOfferedShare};
ghost use Rattle.cli_audit.specs.Seats.{IsSameSeat};

use aud_event::OutOfMemory;
use aud_facts::Facts;
use aud_gossip::receive_all;
use aud_know::{Item, Knowledge};
use aud_node::{Fleet, OfferFault, Packet, Pass, ReadFault, Running};
use cli_findings::has_all;
use crossbeam_channel::Receiver;
use std::alloc::Global;
use std::marker::Model;
use std::sync::{Arc, Wait};

/// The first seat of a node, and whether memory was refused to it.
#[derive(Drop)]
pub(crate) struct Collector<J: Fleet> {
    pub pass: Pass<J>,
    pub failed: bool,
}

impl<J: Fleet> Model for Collector<J> {
    ghost use Rattle.cli_audit.specs.Seats.{CollectorOf};

    ghost Value = { CollectorOf };

    ghost view = { λ d. record { pass = d.pass; failed = d.failed } };
}

/// Offers what is known of the node's share of the facts, of so many nodes, at once: one item in the node's log, which shares the
/// facts where the node is the only one.
fn offer_share<J: Fleet, S: Wait + Drop, R: Wait>(
    rt: &R,
    alloc: Global,
    node: &Running<J, S>,
    pass: &mut Pass<J>,
    facts: &Facts,
    nodes: usize,
) -> Result<(), OutOfMemory>
    requires at { IsOfNode node.now pass.old }
    requires plan { facts.now.plan ≡ node.now.plan }
    requires some { 0 < nodes }
    ensures seat { IsSameSeat pass.old pass.new }
    ensures offered { OnOk result (HasOfferedShare facts.now nodes node.now.number pass.old pass.new) }
{
    let share = facts.share(nodes, node.number() as usize)?;
    let known = Arc::new(alloc, Knowledge::of_facts(alloc, share)?)?;
    match node.offer(rt, alloc, pass, Item::Known(known)) {
        Ok(()) => Ok(()),
        Err((_, OfferFault::OutOfMemory)) => Err(OutOfMemory),
        Err(_) => unreachable!(),
    }
}

impl<J: Fleet> Collector<J> {
    /// Offers the node's share of the facts, of so many nodes.
    pub(crate) fn offer<S: Wait + Drop, R: Wait>(
        &mut self,
        rt: &R,
        alloc: Global,
        node: &Running<J, S>,
        facts: &Facts,
        nodes: usize,
    )
        requires at { IsOfNode node.now self.old.pass }
        requires plan { facts.now.plan ≡ node.now.plan }
        requires some { 0 < nodes }
        ensures seat { IsSameSeat self.old.pass self.new.pass }
        ensures failed { self.new.failed ≡ false → self.old.failed ≡ false }
        ensures offered { self.new.failed ≡ false → HasOfferedShare facts.now nodes node.now.number self.old.pass self.new.pass }
    {
        if offer_share(rt, alloc, node, &mut self.pass, facts, nodes).is_err() {
            self.failed = true;
        }
    }

    /// Takes in all that comes, until the senders are gone.
    pub(crate) fn receive<S: Wait + Drop, R: Wait>(
        &mut self,
        rt: &R,
        alloc: Global,
        node: &Running<J, S>,
        inbox: &Receiver<Packet>,
    )
        requires at { IsOfNode node.now self.old.pass }
        ensures seat { IsSameSeat self.old.pass self.new.pass }
        ensures failed { self.new.failed ≡ false → self.old.failed ≡ false }
    {
        if receive_all(rt, alloc, inbox, node, &mut self.pass).is_err() {
            self.failed = true;
        }
    }

    /// What the node knows, as the collector sees it.
    fn seen<S: Wait + Drop>(&mut self, node: &Running<J, S>) -> Result<Packet, OutOfMemory>
        requires at { IsOfNode node.now self.old.pass }
        ensures { IsSameSeat self.old.pass self.new.pass }
    {
        match node.snapshot(&mut self.pass) {
            Ok(packet) => Ok(packet),
            Err(ReadFault::OutOfMemory) => Err(OutOfMemory),
            Err(ReadFault::WrongNode) => unreachable!(),
        }
    }

    /// Whether these facts, and no others, are known to the node, as the collector sees it.
    pub(crate) fn has_all<S: Wait + Drop>(
        &mut self,
        node: &Running<J, S>,
        facts: &Facts,
    ) -> Result<bool, OutOfMemory>
        requires at { IsOfNode node.now self.old.pass }
        ensures { IsSameSeat self.old.pass self.new.pass }
    {
        let packet = self.seen(node)?;
        Ok(has_all(&packet.known, facts))
    }

    /// Whether these facts, no others, and an order that shows them are known to the node, as the collector sees it.
    pub(crate) fn shows<S: Wait + Drop>(
        &mut self,
        node: &Running<J, S>,
        facts: &Facts,
    ) -> Result<bool, OutOfMemory>
        requires at { IsOfNode node.now self.old.pass }
        ensures { IsSameSeat self.old.pass self.new.pass }
    {
        let packet = self.seen(node)?;
        Ok(packet.known.witness().is_some() && has_all(&packet.known, facts))
    }
}
