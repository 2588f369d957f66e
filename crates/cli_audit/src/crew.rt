//! What the workers of a node do: they search its tasks, and post what the node knows.

ghost use Rattle.std.specs.Prelude.{◌≡◌, ◌<◌, ◌≤◌, true, false, IfOk, OnOk, vec_len};
ghost use Rattle.aud_node.specs.Logs.{state_of};
ghost use Rattle.aud_node.specs.Meanings.{IsOfNode};
ghost use Rattle.aud_split.specs.Pools.{MayRun};
ghost use Rattle.aud_gossip.specs.Deltas.{joined};
ghost use Rattle.aud_gossip.specs.Receiving.{GoesFurther};
ghost use Rattle.aud_order.specs.Shapes.{plan_of};
ghost use Rattle.cli_audit.specs.Doings.{HasPosted};
ghost use Rattle.cli_audit.specs.Seats.{AreLater, IsCrewAt, IsTakenOf, with_senders};
ghost use Rattle.cli_audit.specs.Searches.{IsShare, ShareHasEnded};

use aud_event::{Dup, OutOfMemory};
use aud_gossip::{Outbox, SinceFault};
use aud_node::{Fleet, Packet, Pass, ReadFault, Running};
use aud_search::{Scene, Shared};
use aud_split::laws::pool_ends_all;
use aud_split::{PoolFault, run_pool_with};
use aud_witness::Prefix;
use cli_findings::TaskSearch;
use crossbeam_channel::Sender;
use node_pool::Gate;
use std::alloc::Global;
use std::marker::Model;
use std::mem::replace;
use std::sync::{Arc, Wait};
use std::thread::Threads;

/// The seats of a node's workers, where they post what the node knows, and whether memory was refused to them.
#[derive(Drop)]
pub(crate) struct Crew<J: Fleet> {
    pub passes: Vec<Pass<J>>,
    pub outbox: Outbox,
    pub failed: bool,
}

impl<J: Fleet> Model for Crew<J> {
    ghost use Rattle.cli_audit.specs.Seats.{CrewOf};

    ghost Value = { CrewOf };

    ghost view = { λ c. record { passes = c.passes.items; senders = c.outbox.senders; taken = c.outbox.taken; failed = c.failed } };
}

/// The tasks whose place, divided by the number of nodes, leaves the node's number.
fn share_of(
    alloc: Global,
    tasks: &[Prefix],
    nodes: usize,
    number: usize,
) -> Result<Vec<Prefix>, OutOfMemory>
    requires { 0 < nodes }
    ensures { IfOk result (λ share. IsShare tasks.now nodes number share.items) }
{
    let mut share = Vec::new(alloc);
    for place in 0..tasks.len() {
        if place % nodes == number {
            share.push(tasks[place].dup()?)?;
        }
    }
    Ok(share)
}

/// Has a worker for each pass search the tasks, and says whether each of the tasks ended.
fn search_share<
    H: Scene + Send + Sync,
    J: Fleet + Send + Sync,
    S: Wait + Drop + Send,
    G: Gate<Prefix> + Sync,
    R: Threads + Wait + Sync,
>(
    rt: &R,
    alloc: Global,
    node: &Running<J, S>,
    passes: Vec<Pass<J>>,
    search: &TaskSearch,
    shared: Option<&Shared<H>>,
    gate: &G,
    nodes: usize,
) -> (Vec<Pass<J>>, bool)
    requires named { search.now.shape.value ≡ H.shape }
    requires some { 0 < nodes }
    requires may { MayRun node.now passes.items search.now.shape.value }
    ensures later { AreLater passes.items result.0.items }
    ensures ended { result.1 ≡ true → ShareHasEnded search.now nodes node.now.number result.0.items }
{
    pool_ends_all();
    let Ok(tasks) = share_of(alloc, &search.tasks, nodes, node.number() as usize) else {
        return (passes, false);
    };
    let Ok(shape) = Arc::try_clone(&search.shape) else {
        return (passes, false);
    };
    match run_pool_with(
        rt,
        alloc,
        alloc,
        node,
        passes,
        shape,
        tasks,
        search.budget,
        shared,
        gate,
    ) {
        Ok(end) => (end.passes, end.faults.is_empty()),
        Err((passes, PoolFault::OutOfMemory)) => (passes, false),
        Err(_) => unreachable!(),
    }
}

/// Posts what the node knows, as the pass sees it, beyond what was posted before.
fn post_from<J: Fleet, S: Wait + Drop, R: Wait>(
    rt: &R,
    node: &Running<J, S>,
    pass: &mut Pass<J>,
    outbox: &mut Outbox,
) -> Result<(), OutOfMemory>
    requires at { IsOfNode node.now pass.old }
    requires taken { IsTakenOf node.now.plan outbox.old.taken }
    ensures further { GoesFurther pass.old pass.new }
    ensures taken { IsTakenOf node.now.plan outbox.new.taken }
    ensures posted { OnOk result (outbox.new.taken ≡ joined outbox.old.taken (state_of node.now.plan pass.new.view)) }
{
    let packet = match node.snapshot(pass) {
        Ok(packet) => packet,
        Err(ReadFault::OutOfMemory) => return Err(OutOfMemory),
        Err(_) => unreachable!(),
    };
    let delta = match outbox.since(&packet) {
        Ok(delta) => delta,
        Err(SinceFault::OutOfMemory) => return Err(OutOfMemory),
        Err(_) => unreachable!(),
    };
    let _sent = outbox.post(rt, &delta.packet)?;
    Ok(())
}

impl<J: Fleet> Crew<J> {
    /// Posts to these from now on.
    pub(crate) fn reopen(&mut self, senders: Vec<Sender<Packet>>)
        requires { vec_len senders ≤ 64 }
        ensures { self.new ≡ with_senders (vec_len senders) self.old }
    {
        self.outbox.reopen(senders);
    }

    /// Posts what the node knows beyond what was posted before, by the first worker's seat, and lets the senders go.
    pub(crate) fn post_news<S: Wait + Drop, R: Wait>(
        &mut self,
        rt: &R,
        alloc: Global,
        node: &Running<J, S>,
    )
        requires { IsCrewAt node.now self.old }
        ensures crew { IsCrewAt node.now self.new }
        ensures later { AreLater self.old.passes self.new.passes }
        ensures failed { self.new.failed ≡ false → self.old.failed ≡ false }
        ensures posted { self.new.failed ≡ false → HasPosted node.now.plan self.old self.new }
        ensures closed { self.new.senders ≡ 0 }
    {
        let posted = post_from(rt, node, &mut self.passes[0], &mut self.outbox);
        self.failed = self.failed || posted.is_err();
        self.outbox.reopen(Vec::new(alloc));
    }
}

impl<J: Fleet + Send + Sync> Crew<J> {
    /// Searches the node's share of the tasks, of so many nodes, over what all crews share. Then the crew posts what the node knows.
    pub(crate) fn search<
        H: Scene + Send + Sync,
        S: Wait + Drop + Send,
        G: Gate<Prefix> + Sync,
        R: Threads + Wait + Sync,
    >(
        &mut self,
        rt: &R,
        alloc: Global,
        node: &Running<J, S>,
        search: &TaskSearch,
        shared: Option<&Shared<H>>,
        gate: &G,
        nodes: usize,
    )
        requires named { search.now.shape.value ≡ H.shape }
        requires some { 0 < nodes }
        requires at { IsCrewAt node.now self.old }
        requires planned { plan_of search.now.shape.value ≡ node.now.plan }
        ensures crew { IsCrewAt node.now self.new }
        ensures ended { self.new.failed ≡ false → ShareHasEnded search.now nodes node.now.number self.new.passes }
        ensures failed { self.new.failed ≡ false → self.old.failed ≡ false }
        ensures closed { self.new.senders ≡ 0 }
    {
        let passes = replace(&mut self.passes, Vec::new(alloc));
        let (passes, ended) = search_share(rt, alloc, node, passes, search, shared, gate, nodes);
        self.passes = passes;
        self.failed = self.failed || !ended;
        self.post_news(rt, alloc, node);
    }
}
