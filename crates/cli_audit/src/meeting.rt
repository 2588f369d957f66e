//! What all nodes do at once: they offer what they were given, tell each other, and search.

ghost use Rattle.std.specs.Prelude.{◌≡◌, ◌≤◌, ◌<◌, ◌+◌, false, IfOk, OnOk, IsTrue, length, vec_len};
ghost use Rattle.std.specs.List.{HoldsAt};
ghost use Rattle.aud_order.specs.Shapes.{plan_of};
ghost use Rattle.cli_audit.specs.Doings.{AreDone};
ghost use Rattle.cli_audit.specs.Seats.{AreClosed, AreConnected, AreOf, AreCrews, AreCollectors, IsCrewAt, IsCollectorAt};
ghost use Rattle.cli_audit.specs.Searches.{HaveEnded, SearchHasEnded, CrewsHaveEnded, ShareHasEnded};
ghost use Rattle.cli_audit.specs.Meshes.{IsMesh, IsMeshFor};

use crate::collector::Collector;
use crate::crew::Crew;
use crate::mesh::Mesh;
use aud_event::OutOfMemory;
use aud_facts::Facts;
use aud_node::{Fleet, Packet, Running};
use aud_search::{Scene, Shared};
use aud_witness::Prefix;
use cli_findings::TaskSearch;
use crossbeam_channel::{Receiver, Sender};
use node_pool::Gate;
use std::alloc::Global;
use std::sync::Wait;
use std::thread;
use std::thread::Threads;

/// The greatest number of nodes.
const NODES_MAX: usize = 8;

/// A channel for each of so many nodes.
fn channels(
    alloc: Global,
    count: usize,
) -> Result<(Vec<Sender<Packet>>, Vec<Receiver<Packet>>), OutOfMemory>
    ensures senders { IfOk result (λ ends. length ends.0.items ≡ count) }
    ensures inboxes { IfOk result (λ ends. length ends.1.items ≡ count) }
{
    let mut senders = Vec::new(alloc);
    let mut inboxes = Vec::new(alloc);
    for _place in 0..count {
        let (sender, inbox) = crossbeam_channel::unbounded(alloc)?;
        senders.push(sender)?;
        inboxes.push(inbox)?;
    }
    Ok((senders, inboxes))
}

/// Puts a sender to the same node as each of these after the others.
fn push_clones(
    others: &mut Vec<Sender<Packet>>,
    senders: &[Sender<Packet>],
) -> Result<(), OutOfMemory>
    ensures { OnOk result (length others.new.items ≡ length others.old.items + length senders.now) }
{
    for sender in senders {
        others.push(sender.clone()?)?;
    }
    Ok(())
}

/// Senders to all nodes but the one at the place.
fn senders_but(
    alloc: Global,
    senders: &[Sender<Packet>],
    but: usize,
) -> Result<Vec<Sender<Packet>>, OutOfMemory>
    requires { but < length senders.now }
    ensures { IfOk result (λ others. vec_len others + 1 ≡ length senders.now) }
{
    let mut others = Vec::new(alloc);
    push_clones(&mut others, &senders[..but])?;
    push_clones(&mut others, &senders[but + 1..])?;
    Ok(others)
}

/// Gives each crew senders to all other nodes, and answers where what they send comes out, by place.
fn connect<J: Fleet>(
    alloc: Global,
    crews: &mut [Crew<J>],
) -> Result<Vec<Receiver<Packet>>, OutOfMemory>
    requires few { length crews.old ≤ 8 }
    ensures connected { OnOk result (AreConnected crews.old crews.new) }
    ensures inboxes { IfOk result (λ inboxes. length inboxes.items ≡ length crews.old) }
{
    let (senders, inboxes) = channels(alloc, crews.len())?;
    for place in 0..crews.len() {
        let others = senders_but(alloc, &senders, place)?;
        crews[place].reopen(others);
    }
    Ok(inboxes)
}

/// Each node's collector offers the node's share of the facts.
fn offer_all<J: Fleet + Send + Sync, S: Wait + Drop + Send, R: Threads + Wait + Sync>(
    rt: &R,
    alloc: Global,
    nodes: &[Running<J, S>],
    collectors: &mut [Collector<J>],
    facts: &Facts,
)
    requires collectors { AreCollectors nodes.now collectors.old }
    requires planned { AreOf facts.now.plan nodes.now }
    ensures { AreCollectors nodes.now collectors.new }
{
    let each = |place: usize, collector: &mut Collector<J>|
        requires { (place < length nodes.now) × (AreOf facts.now.plan nodes.now
            × HoldsAt (λ n. IsCollectorAt n collector.now) nodes.now place) }
        ensures { HoldsAt (λ n. IsCollectorAt n collector.exit.now) nodes.entry.now place }
    { collector.offer(rt, alloc, &nodes[place], facts, nodes.len()) };
    thread::for_each_mut(rt, collectors, NODES_MAX, &each);
}

/// Each node's crew posts what the node knows.
fn post_all<J: Fleet + Send + Sync, S: Wait + Drop + Send, R: Threads + Wait + Sync>(
    rt: &R,
    alloc: Global,
    nodes: &[Running<J, S>],
    crews: &mut [Crew<J>],
)
    requires { AreCrews nodes.now crews.old }
    ensures crews { AreCrews nodes.now crews.new }
    ensures closed { AreClosed crews.new }
{
    let each = |place: usize, crew: &mut Crew<J>|
        requires { (place < length nodes.now) × HoldsAt (λ n. IsCrewAt n crew.now) nodes.now place }
        ensures { HoldsAt (λ n. IsCrewAt n crew.exit.now) nodes.entry.now place × (crew.exit.now.senders ≡ 0) }
    { crew.post_news(rt, alloc, &nodes[place]) };
    thread::for_each_mut(rt, crews, NODES_MAX, &each);
}

/// Each node's collector takes in what comes to the node, until nobody can send any more.
fn receive_each<J: Fleet + Send + Sync, S: Wait + Drop + Send, R: Threads + Wait + Sync>(
    rt: &R,
    alloc: Global,
    nodes: &[Running<J, S>],
    collectors: &mut [Collector<J>],
    inboxes: &[Receiver<Packet>],
)
    requires collectors { AreCollectors nodes.now collectors.old }
    requires inboxes { length inboxes.now ≡ length nodes.now }
    ensures { AreCollectors nodes.now collectors.new }
{
    let each = |place: usize, collector: &mut Collector<J>|
        requires { ((place < length nodes.now) × (place < length inboxes.now))
            × HoldsAt (λ n. IsCollectorAt n collector.now) nodes.now place }
        ensures { HoldsAt (λ n. IsCollectorAt n collector.exit.now) nodes.entry.now place }
    { collector.receive(rt, alloc, &nodes[place], &inboxes[place]) };
    thread::for_each_mut(rt, collectors, NODES_MAX, &each);
}

/// Each node's crew searches the node's share of the tasks, and posts what the node knows then.
fn search_each<
    H: Scene + Send + Sync,
    J: Fleet + Send + Sync,
    S: Wait + Drop + Send,
    G: Gate<Prefix> + Sync,
    R: Threads + Wait + Sync,
>(
    rt: &R,
    alloc: Global,
    nodes: &[Running<J, S>],
    crews: &mut [Crew<J>],
    search: &TaskSearch,
    shared: Option<&Shared<H>>,
    gate: &G,
)
    requires named { search.now.shape.value ≡ H.shape }
    requires crews { AreCrews nodes.now crews.old }
    requires planned { AreOf (plan_of search.now.shape.value) nodes.now }
    ensures crews { AreCrews nodes.now crews.new }
    ensures ended { CrewsHaveEnded search.now nodes.now crews.new }
    ensures closed { AreClosed crews.new }
{
    let each = |place: usize, crew: &mut Crew<J>|
        requires { (place < length nodes.now) × (search.now.shape.value ≡ H.shape) × AreOf (plan_of search.now.shape.value) nodes.now
            × HoldsAt (λ n. IsCrewAt n crew.now) nodes.now place }
        ensures { HoldsAt (λ n. IsCrewAt n crew.exit.now × (crew.exit.now.failed ≡ false →
            ShareHasEnded search.entry.now (length nodes.entry.now) n.number crew.exit.now.passes)) nodes.entry.now place
            × (crew.exit.now.senders ≡ 0) }
    { crew.search(rt, alloc, &nodes[place], search, shared, gate, nodes.len()) };
    thread::for_each_mut(rt, crews, NODES_MAX, &each);
}

/// Whether memory was refused to nobody.
fn has_all_done<J: Fleet>(collectors: &[Collector<J>], crews: &[Crew<J>]) -> bool
    ensures { IsTrue result → AreDone collectors.now crews.now }
{
    collectors.iter().all(|collector| !collector.failed) && crews.iter().all(|crew| !crew.failed)
}

/// What is done, where memory was refused to nobody.
fn checked<J: Fleet>(collectors: &[Collector<J>], crews: &[Crew<J>]) -> Result<(), OutOfMemory>
    ensures { OnOk result (AreDone collectors.now crews.now) }
{
    if has_all_done(collectors, crews) {
        Ok(())
    } else {
        Err(OutOfMemory)
    }
}

impl<J: Fleet + Send + Sync, S: Wait + Drop + Send> Mesh<J, S> {
    /// Each node's collector offers the node's share of the facts.
    fn offer<R: Threads + Wait + Sync>(&mut self, rt: &R, alloc: Global, facts: &Facts)
        requires collectors { AreCollectors self.old.nodes.items self.old.collectors.items }
        requires planned { AreOf facts.now.plan self.old.nodes.items }
        ensures collectors { AreCollectors self.new.nodes.items self.new.collectors.items }
        ensures others { (self.new.nodes ≡ self.old.nodes) × (self.new.crews ≡ self.old.crews) }
    {
        offer_all(
            rt,
            alloc,
            &self.nodes,
            self.collectors.as_mut_slice(),
            facts,
        );
    }

    /// Gives each crew senders to all other nodes, and answers where what they send comes out, by place.
    fn connect(&mut self, alloc: Global) -> Result<Vec<Receiver<Packet>>, OutOfMemory>
        requires { length self.old.crews.items ≤ 8 }
        ensures connected { OnOk result (AreConnected self.old.crews.items self.new.crews.items) }
        ensures others { (self.new.nodes ≡ self.old.nodes) × (self.new.collectors ≡ self.old.collectors) }
        ensures inboxes { IfOk result (λ inboxes. length inboxes.items ≡ length self.old.crews.items) }
    {
        connect(alloc, self.crews.as_mut_slice())
    }

    /// Each node's crew posts what the node knows.
    fn post<R: Threads + Wait + Sync>(&mut self, rt: &R, alloc: Global)
        requires { AreCrews self.old.nodes.items self.old.crews.items }
        ensures crews { AreCrews self.new.nodes.items self.new.crews.items }
        ensures closed { AreClosed self.new.crews.items }
        ensures others { (self.new.nodes ≡ self.old.nodes) × (self.new.collectors ≡ self.old.collectors) }
    {
        post_all(rt, alloc, &self.nodes, self.crews.as_mut_slice());
    }

    /// Each node's collector takes in what comes to the node, which ends since no crew has a sender any more.
    fn receive<R: Threads + Wait + Sync>(
        &mut self,
        rt: &R,
        alloc: Global,
        inboxes: &[Receiver<Packet>],
    )
        requires collectors { AreCollectors self.old.nodes.items self.old.collectors.items }
        requires inboxes { length inboxes.now ≡ length self.old.nodes.items }
        requires closed { AreClosed self.old.crews.items }
        ensures collectors { AreCollectors self.new.nodes.items self.new.collectors.items }
        ensures others { (self.new.nodes ≡ self.old.nodes) × (self.new.crews ≡ self.old.crews) }
    {
        receive_each(
            rt,
            alloc,
            &self.nodes,
            self.collectors.as_mut_slice(),
            inboxes,
        );
    }

    /// Each node's crew searches the node's share of the tasks, and posts what the node knows then.
    fn work<H: Scene + Send + Sync, G: Gate<Prefix> + Sync, R: Threads + Wait + Sync>(
        &mut self,
        rt: &R,
        alloc: Global,
        search: &TaskSearch,
        shared: Option<&Shared<H>>,
        gate: &G,
    )
        requires named { search.now.shape.value ≡ H.shape }
        requires crews { AreCrews self.old.nodes.items self.old.crews.items }
        requires planned { AreOf (plan_of search.now.shape.value) self.old.nodes.items }
        ensures crews { AreCrews self.new.nodes.items self.new.crews.items }
        ensures others { (self.new.nodes ≡ self.old.nodes) × (self.new.collectors ≡ self.old.collectors) }
        ensures ended { CrewsHaveEnded search.now self.new.nodes.items self.new.crews.items }
        ensures closed { AreClosed self.new.crews.items }
    {
        search_each(
            rt,
            alloc,
            &self.nodes,
            self.crews.as_mut_slice(),
            search,
            shared,
            gate,
        );
    }

    /// Each node takes its share of the facts, and tells all others what it has.
    pub(crate) fn share<R: Threads + Wait + Sync>(
        &mut self,
        rt: &R,
        alloc: Global,
        facts: &Facts,
    ) -> Result<(), OutOfMemory>
        requires mesh { IsMesh facts.now.plan self.old.nodes.items self.old.collectors.items self.old.crews.items }
        requires few { length self.old.nodes.items ≤ 8 }
        ensures nodes { self.new.nodes ≡ self.old.nodes }
        ensures mesh { OnOk result (IsMesh facts.now.plan self.new.nodes.items self.new.collectors.items self.new.crews.items) }
        ensures done { OnOk result (AreDone self.new.collectors.items self.new.crews.items) }
    {
        self.offer(rt, alloc, facts);
        let inboxes = self.connect(alloc)?;
        self.post(rt, alloc);
        self.receive(rt, alloc, &inboxes);
        checked(&self.collectors, &self.crews)
    }

    /// Whether the first node, as its collector sees it, has these facts, and no others.
    pub(crate) fn first_has_all(&mut self, facts: &Facts) -> Result<bool, OutOfMemory>
        requires mesh { IsMesh facts.now.plan self.old.nodes.items self.old.collectors.items self.old.crews.items }
        requires some { 0 < length self.old.nodes.items }
        ensures nodes { self.new.nodes ≡ self.old.nodes }
        ensures mesh { IsMesh facts.now.plan self.new.nodes.items self.new.collectors.items self.new.crews.items }
    {
        self.collectors[0].has_all(&self.nodes[0], facts)
    }

    /// Whether the first node, as its collector sees it, has these facts and no others, and an order that shows them.
    pub(crate) fn first_shows(&mut self, facts: &Facts) -> Result<bool, OutOfMemory>
        requires mesh { IsMesh facts.now.plan self.old.nodes.items self.old.collectors.items self.old.crews.items }
        requires some { 0 < length self.old.nodes.items }
        ensures nodes { self.new.nodes ≡ self.old.nodes }
        ensures mesh { IsMesh facts.now.plan self.new.nodes.items self.new.collectors.items self.new.crews.items }
    {
        self.collectors[0].shows(&self.nodes[0], facts)
    }

    /// All crews search the tasks, each its node's share, over what they share. Then the collectors take in what was found at other
    /// nodes.
    pub(crate) fn search<H: Scene + Send + Sync, G: Gate<Prefix> + Sync, R: Threads + Wait + Sync>(
        &mut self,
        rt: &R,
        alloc: Global,
        search: &TaskSearch,
        shared: Option<&Shared<H>>,
        gate: &G,
    ) -> Result<(), OutOfMemory>
        requires named { search.now.shape.value ≡ H.shape }
        requires mesh { IsMeshFor search.now self.old.nodes.items self.old.collectors.items self.old.crews.items }
        requires few { length self.old.nodes.items ≤ 8 }
        requires some { 0 < length self.old.nodes.items }
        ensures nodes { self.new.nodes ≡ self.old.nodes }
        ensures mesh { OnOk result (IsMeshFor search.now self.new.nodes.items self.new.collectors.items self.new.crews.items) }
        ensures ended { OnOk result (SearchHasEnded search.now self.new.crews.items) }
        ensures done { OnOk result (AreDone self.new.collectors.items self.new.crews.items) }
    {
        let inboxes = self.connect(alloc)?;
        self.work(rt, alloc, search, shared, gate);
        self.receive(rt, alloc, &inboxes);
        checked(&self.collectors, &self.crews)
    }
}
