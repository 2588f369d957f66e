//! Offering all that comes from other nodes.

ghost use Rattle.std.specs.Prelude.{◌≡◌, IfErr, IfOk, OnErr, OnOk};
ghost use Rattle.aud_node.specs.Meanings.{IsOfNode};
ghost use Rattle.aud_gossip.specs.Receiving.{GoesFurther, HasOffered, HasPlan, IsStop, ReportsWhetherOffered};

use aud_know::Item;
use aud_node::{Fleet, OfferFault, Packet, Pass, Running};
use crossbeam_channel::Receiver;
use std::alloc::Global;
use std::sync::Wait;

/// How many packets were offered and answered Ok, and how many were of another plan. The second count stays at the greatest
/// `u64`.
#[derive(Clone, Copy, Debug, PartialEq, Eq)]
pub struct Received {
    pub taken: u64,
    pub foreign: u64,
}

/// Why the receiving stopped: `WrongNode`, before anything was received, or `OutOfMemory`, with the packet that was not
/// offered for it. What was received by then is counted.
#[derive(Drop)]
pub struct Stopped {
    pub packet: Option<Packet>,
    pub received: Received,
    pub fault: OfferFault,
}

// Offers what the packet knows, or drops it where it is of another plan, and says whether it was offered. Where memory is
// refused it gives the packet back.
fn offer_packet<J: Fleet, S: Wait + Drop, R: Wait>(
    rt: &R,
    alloc: Global,
    node: &Running<J, S>,
    pass: &mut Pass<J>,
    packet: Packet,
) -> Result<bool, Packet>
    requires { IsOfNode node.now pass.old }
    ensures reported { IfOk result (λ b. ReportsWhetherOffered b node.now.plan packet pass.old pass.new) }
    ensures further { GoesFurther pass.old pass.new }
    ensures back { IfErr result (λ p. (p ≡ packet) × HasPlan node.now.plan p) }
    ensures unchanged { OnErr result (pass.new ≡ pass.old) }
{
    match node.offer(rt, alloc, pass, Item::Known(packet.known)) {
        Ok(()) => Ok(true),
        Err((_, OfferFault::PlanMismatch)) => Ok(false),
        Err((Item::Known(known), OfferFault::OutOfMemory)) => Err(Packet { known }),
        Err(_) => unreachable!(),
    }
}

/// Offers what each packet knows to the node, in the order in which they come, until the channel is closed; a packet of
/// another plan is dropped and counted. It waits for packets, and as `Node::offer` does. After a stop since memory ran out
/// the inbox still has what was not received.
#[tactic(auto, using(crate::proofs::Offering::offered_none, crate::proofs::Offering::offered_more, crate::proofs::Offering::further_self, crate::proofs::Offering::further_trans))]
pub fn receive_all<J: Fleet, S: Wait + Drop, R: Wait>(
    rt: &R,
    alloc: Global,
    inbox: &Receiver<Packet>,
    node: &Running<J, S>,
    pass: &mut Pass<J>,
) -> Result<Received, Stopped>
    ensures taken { IfOk result (λ r. HasOffered node.now.plan pass.old pass.new r.taken) }
    ensures taken_before { IfErr result (λ s. HasOffered node.now.plan pass.old pass.new s.received.taken) }
    ensures further { GoesFurther pass.old pass.new }
    ensures received { OnOk result (IsOfNode node.now pass.old) }
    ensures stopped { IfErr result (λ s. IsStop node.now pass.old s) }
    ensures wrong { IfErr result (λ s. s.fault ≡ OfferFault.WrongNode → pass.new ≡ pass.old) }
{
    let mut received = Received {
        taken: 0,
        foreign: 0,
    };
    if pass.number() != node.number() {
        return Err(Stopped {
            packet: None,
            received,
            fault: OfferFault::WrongNode,
        });
    }
    let offers = pass.offers();
    for _ in rt.forever() {
        let Ok(packet) = inbox.recv(rt) else {
            return Ok(received);
        };
        match offer_packet(rt, alloc, node, pass, packet) {
            Ok(true) => received.taken = pass.offers() - offers,
            Ok(false) => received.foreign = received.foreign.saturating_add(1),
            Err(packet) => {
                return Err(Stopped {
                    packet: Some(packet),
                    received,
                    fault: OfferFault::OutOfMemory,
                });
            }
        }
    }
    unreachable!()
}
