//! Nodes and the packets that they posted.

ghost use Rattle.std.specs.Prelude.{◌≡◌, ◌≤◌, ◌<◌, [], ◌∷◌, ◌++◌, map, length, replicate, None, Some, slice_get, IfOk, IfErr, OnOk, OnErr, MatchResult};
ghost use Rattle.std.specs.Option.{option_copied};
ghost use Rattle.std.specs.List.{AllByRecursion};
ghost use Rattle.aud_event.specs.Meanings.{PlanOf};
ghost use Rattle.aud_event.specs.Facts.{first_fact_fault};
ghost use Rattle.aud_know.specs.Norms as norms;
ghost use Rattle.aud_know.specs.Known.{knowing};
ghost use Rattle.aud_know.specs.Findings.{found};
ghost use Rattle.aud_world.specs.Clouds.{Cloud, Gains};
ghost use Rattle.aud_world.specs.Moves.{after_move, after_moves, at_first, IsTrueMove};
ghost use Rattle.aud_world.specs.Worlds.{IsWorldOf, AreOfPlan};
ghost use Rattle.aud_world.specs.Faults.{IsAllowed, AreAllowed, IsFaultOf, ReportsWhetherTaken, made};
ghost use Rattle.aud_world.specs.Headline.{KeepsHeadline};

use crate::laws::headline_holds;
use crate::moves::{Move, MoveFault};
use aud_event::{Fact, OutOfMemory, Plan};
use aud_know::laws::norm_absorbs;
use aud_know::{Finding, Knowledge};
use std::alloc::{Allocator, Global};
use std::marker::Model;
use std::sync::Arc;

/// Nodes of one plan and the packets that they posted. A packet shares what its sender had, so a post costs the same at
/// any size.
#[derive(Drop)]
pub struct World<A: Allocator + Copy = Global> {
    plan: Arc<Plan<A>, A>,
    nodes: Vec<Knowledge<A>, A>,
    packets: Vec<Knowledge<A>, A>,
}

impl<A: Allocator + Copy> Model for World<A> {
    ghost use Rattle.aud_world.specs.Worlds.{WorldOf, AreOfPlan};

    ghost Value = { WorldOf };

    ghost view = { λ w. record { plan = w.plan.value; nodes = w.nodes.items; packets = w.packets.items } };

    ghost invariant = { λ w. AreOfPlan w.plan.value w.nodes.items × AreOfPlan w.plan.value w.packets.items };
}

// So many nodes that know nothing.
fn empty_nodes<A: Allocator + Copy>(
    alloc: A,
    plan: &Arc<Plan<A>, A>,
    count: u32,
) -> Result<Vec<Knowledge<A>, A>, OutOfMemory>
    ensures { IfOk result (λ nodes. nodes.items ≡ replicate count (knowing plan.now.value [])) }
{
    let mut nodes = Vec::new(alloc);
    for _ in 0..count {
        nodes.push(Knowledge::empty(alloc, Arc::try_clone(plan)?)?)?;
    }
    Ok(nodes)
}

// The node takes the fact.
fn feed<A: Allocator + Copy>(
    nodes: &mut Vec<Knowledge<A>, A>,
    number: usize,
    item: &Fact,
) -> Result<(), MoveFault>
    requires { number < length nodes.old.items }
    ensures gains { OnOk result (Gains number (norms.fact item.now ∷ []) nodes.old.items nodes.new.items) }
    ensures plans { map (λ k. k.plan) nodes.new.items ≡ map (λ k. k.plan) nodes.old.items }
    ensures fault { (plan : PlanOf) → AreOfPlan plan nodes.old.items →
        ReportsWhetherTaken (first_fact_fault plan item.now ≡ None) result }
    ensures err { OnErr result (nodes.new.items ≡ nodes.old.items) }
{
    nodes[number].take_fact(item)?;
    Ok(())
}

// The node takes the finding.
fn find<A: Allocator + Copy>(
    nodes: &mut Vec<Knowledge<A>, A>,
    number: usize,
    finding: &Finding<A>,
) -> Result<(), MoveFault>
    requires { number < length nodes.old.items }
    ensures gains { OnOk result (Gains number (found finding.now) nodes.old.items nodes.new.items) }
    ensures plans { map (λ k. k.plan) nodes.new.items ≡ map (λ k. k.plan) nodes.old.items }
    ensures fault { AreOfPlan finding.now.facts.plan nodes.old.items → IfErr result (λ e. e ≡ MoveFault.OutOfMemory) }
    ensures err { OnErr result (nodes.new.items ≡ nodes.old.items) }
{
    nodes[number].take_finding(finding)?;
    Ok(())
}

// The node takes all that a packet holds.
fn deliver<A: Allocator + Copy>(
    nodes: &mut Vec<Knowledge<A>, A>,
    number: usize,
    packet: &Knowledge<A>,
) -> Result<(), MoveFault>
    requires { number < length nodes.old.items }
    ensures gains { OnOk result (Gains number (norms.atoms_of packet.now.held) nodes.old.items nodes.new.items) }
    ensures plans { map (λ k. k.plan) nodes.new.items ≡ map (λ k. k.plan) nodes.old.items }
    ensures fault { AreOfPlan packet.now.plan nodes.old.items → IfErr result (λ e. e ≡ MoveFault.OutOfMemory) }
    ensures err { OnErr result (nodes.new.items ≡ nodes.old.items) }
{
    nodes[number].join(packet)?;
    Ok(())
}

// Posts a packet of what the node knows.
fn post<A: Allocator + Copy>(
    node: &Knowledge<A>,
    packets: &mut Vec<Knowledge<A>, A>,
) -> Result<(), OutOfMemory>
    ensures posted { OnOk result (packets.new.items ≡ packets.old.items ++ node.now ∷ []) }
    ensures err { OnErr result (packets.new.items ≡ packets.old.items) }
{
    packets.push(node.copy()?)?;
    Ok(())
}

impl<A: Allocator + Copy> World<A> {
    /// So many nodes that know nothing, and no packet.
    pub fn new(alloc: A, plan: Plan<A>, nodes: u32) -> Result<World<A>, OutOfMemory>
        requires { (1 ≤ nodes) × (nodes ≤ 64) }
        ensures first { IfOk result (λ w. IsWorldOf w (at_first nodes)) }
        ensures plan { IfOk result (λ w. w.plan ≡ plan) }
        ensures len { IfOk result (λ w. length w.nodes ≡ nodes) }
    {
        let plan = Arc::new(alloc, plan)?;
        let nodes = empty_nodes(alloc, &plan, nodes)?;
        Ok(World {
            plan,
            nodes,
            packets: Vec::new(alloc),
        })
    }

    /// What the node knows, if there is one of the number.
    pub fn node(&self, number: u32) -> Option<&Knowledge<A>>
        ensures { option_copied result ≡ slice_get self.now.nodes number }
    {
        self.nodes.get(number as usize)
    }

    /// How many packets were posted.
    pub fn packets(&self) -> usize
        ensures { result ≡ length self.now.packets }
    {
        self.packets.len()
    }

    /// Makes the move, or reports the least fault and leaves the world as it was. A delivery of what the node knows already
    /// copies no facts.
    pub fn step(&mut self, next: &Move<A>) -> Result<(), MoveFault>
        ensures moved { OnOk result ((c : Cloud) → IsWorldOf self.old c → IsWorldOf self.new (after_move c next.now)) }
        ensures plan { self.new.plan ≡ self.old.plan }
        ensures len { length self.new.nodes ≡ length self.old.nodes }
        ensures fault { MatchResult result (λ _. IsAllowed self.old next.now) (IsFaultOf self.old next.now) }
        ensures truth { OnOk result (IsTrueMove self.old.plan next.now) }
        ensures err { OnErr result (self.new ≡ self.old) }
    {
        norm_absorbs();
        let node = next.node() as usize;
        if node >= self.nodes.len() {
            return Err(MoveFault::NoNode);
        }
        match next {
            Move::Feed(_, fact) => {
                feed(&mut self.nodes, node, fact)?;
                Ok(())
            }
            Move::Find(_, finding) => {
                if !finding.facts().plan().same(&self.plan) {
                    return Err(MoveFault::PlanMismatch);
                }
                find(&mut self.nodes, node, finding)?;
                Ok(())
            }
            Move::Post(_) => {
                post(&self.nodes[node], &mut self.packets)?;
                Ok(())
            }
            Move::Deliver(packet, _) => {
                let Some(packet) = self.packets.get(*packet as usize) else {
                    return Err(MoveFault::NoPacket);
                };
                deliver(&mut self.nodes, node, packet)?;
                Ok(())
            }
        }
    }

    /// Makes the moves in turn, up to the first that is refused: it reports that one's place, from 0, and its fault, and
    /// leaves the world after the moves before it.
    ///
    /// Nodes that took the same records and findings, in any order or grouping and with repeats, hold equal states and give
    /// one verdict; for a sealed well-formed history 'opaque' carries a completion and a serial order that show it opaque by
    /// the 2008 definition, and 'not opaque' is said only when no completion and serial order shows it.
    pub fn run(&mut self, moves: &[Move<A>]) -> Result<(), (usize, MoveFault)>
        ensures moved { (c : Cloud) → IsWorldOf self.old c → IsWorldOf self.new (after_moves c (made result moves.now)) }
        ensures plan { self.new.plan ≡ self.old.plan }
        ensures len { length self.new.nodes ≡ length self.old.nodes }
        ensures stopped { IfErr result (λ e. (m : Move A) × (slice_get moves.now e.0 ≡ Some m) × IsFaultOf self.new m e.1) }
        ensures truth { AllByRecursion (IsTrueMove self.old.plan) (made result moves.now) }
        ensures allowed { (c : Cloud) → IsWorldOf self.old c → AreAllowed self.old.plan c (made result moves.now) }
        ensures headline { KeepsHeadline self.old (made result moves.now) self.new }
    {
        headline_holds::<A>();
        for (place, next) in moves.iter().enumerate() {
            if let Err(fault) = self.step(next) {
                return Err((place, fault));
            }
        }
        Ok(())
    }
}
