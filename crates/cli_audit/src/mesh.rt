//! All nodes of an audit, with their collectors and their crews.

ghost use Rattle.std.specs.Prelude.{◌≡◌, ◌≤◌, ◌<◌, ◌+◌, ◌++◌, ◌∷◌, [], ℕ, None, IfOk, OnOk, length};
ghost use Rattle.aud_node.specs.Meanings.{node_of};
ghost use Rattle.cli_audit.specs.Seats.{AreOpened, Each, IsCrewAt, IsCollectorAt};
ghost use Rattle.cli_audit.specs.Meshes.{IsMesh};

use crate::collector::Collector;
use crate::crew::Crew;
use crate::fault::AuditFault;
use aud_event::{Dup, OutOfMemory, Plan};
use aud_gossip::Outbox;
use aud_node::{Fleet, Opened, Pass, Running, StartFault};
use std::alloc::Global;
use std::sync::Wait;

/// The nodes, whose numbers are their places, and at the same places their collectors and their crews.
#[derive(Drop)]
pub(crate) struct Mesh<J: Fleet, S: Wait + Drop> {
    pub nodes: Vec<Running<J, S>>,
    pub collectors: Vec<Collector<J>>,
    pub crews: Vec<Crew<J>>,
}

/// New histories, whose numbers are their places.
pub(crate) fn open_all(alloc: Global, count: u32) -> Result<Vec<Opened>, OutOfMemory>
    ensures numbers { IfOk result (λ all. Each (λ k o. o.number ≡ k) all.items) }
    ensures len { IfOk result (λ all. length all.items ≡ count) }
{
    let mut all = Vec::new(alloc);
    for number in 0..count {
        all.push(Opened::new(number))?;
    }
    Ok(all)
}

/// A node that runs, its collector and its crew.
#[derive(Drop)]
struct Started<J: Fleet, S: Wait + Drop> {
    node: Running<J, S>,
    collector: Collector<J>,
    crew: Crew<J>,
}

/// The collector of the first pass, and the crew of the others.
fn seated<J: Fleet>(
    alloc: Global,
    mut passes: Vec<Pass<J>>,
) -> Result<(Collector<J>, Crew<J>), OutOfMemory>
    requires { 0 < length passes.items }
    ensures { IfOk result (λ made. (passes.items ≡ made.0.pass ∷ made.1.passes) × (made.1.taken ≡ None)) }
{
    let seats = passes.split_off(1)?;
    let Some(pass) = passes.pop() else {
        unreachable!()
    };
    let collector = Collector {
        pass,
        failed: false,
    };
    let crew = Crew {
        passes: seats,
        outbox: Outbox::new(Vec::new(alloc)),
        failed: false,
    };
    Ok((collector, crew))
}

/// Starts the node of a new history, with so many workers.
fn start_one<J: Fleet, S: Wait + Drop>(
    rt: S,
    alloc: Global,
    opened: Opened,
    plan: &Plan,
    workers: u32,
) -> Result<Started<J, S>, AuditFault>
    requires named { opened.book ≡ J.book opened.number }
    requires planned { plan.now ≡ J.plan opened.number }
    requires workers { (1 ≤ workers) × (workers ≤ 16) }
    ensures node { IfOk result (λ made. made.node ≡ node_of opened plan.now (workers + 1)) }
    ensures collector { IfOk result (λ made. IsCollectorAt made.node made.collector) }
    ensures crew { IfOk result (λ made. IsCrewAt made.node made.crew) }
{
    let (node, passes) = match Running::<J, S>::start(rt, alloc, opened, plan.dup()?, workers + 1) {
        Ok(started) => started,
        Err(StartFault::NoPlace) => return Err(AuditFault::NoThread),
        Err(StartFault::OutOfMemory) => return Err(AuditFault::OutOfMemory),
        Err(StartFault::SeatRange) => unreachable!(),
    };
    let (collector, crew) = seated(alloc, passes)?;
    Ok(Started {
        node,
        collector,
        crew,
    })
}

impl<J: Fleet, S: Wait + Drop> Mesh<J, S> {
    /// Puts a node, its collector and its crew after the others.
    fn add(&mut self, started: Started<J, S>) -> Result<(), OutOfMemory>
        ensures nodes { OnOk result (self.new.nodes.items ≡ self.old.nodes.items ++ started.node ∷ []) }
        ensures collectors { OnOk result (self.new.collectors.items ≡ self.old.collectors.items ++ started.collector ∷ []) }
        ensures crews { OnOk result (self.new.crews.items ≡ self.old.crews.items ++ started.crew ∷ []) }
    {
        let Started {
            node,
            collector,
            crew,
        } = started;
        self.nodes.push(node)?;
        self.collectors.push(collector)?;
        self.crews.push(crew)?;
        Ok(())
    }
}

/// Starts the nodes of new histories, with so many workers each.
pub(crate) fn start_all<'r, J: Fleet, R: Wait>(
    rt: &'r R,
    alloc: Global,
    opened: Vec<Opened>,
    plan: &Plan,
    workers: u32,
) -> Result<Mesh<J, &'r R>, AuditFault>
    requires opened { AreOpened J.book opened.items }
    requires planned { (i : ℕ) → J.plan i ≡ plan.now }
    requires workers { (1 ≤ workers) × (workers ≤ 16) }
    ensures mesh { IfOk result (λ mesh. IsMesh plan.now mesh.nodes.items mesh.collectors.items mesh.crews.items) }
    ensures len { IfOk result (λ mesh. length mesh.nodes.items ≡ length opened.items) }
{
    let mut mesh = Mesh {
        nodes: Vec::new(alloc),
        collectors: Vec::new(alloc),
        crews: Vec::new(alloc),
    };
    for one in opened {
        let started = start_one(rt, alloc, one, plan, workers)?;
        mesh.add(started)?;
    }
    Ok(mesh)
}
