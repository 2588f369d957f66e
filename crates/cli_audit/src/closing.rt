//! The end of all nodes: what they know together.

ghost use Rattle.std.specs.Prelude.{◌≡◌, ◌++◌, ◌∷◌, [], None, IfOk, IfSome};
ghost use Rattle.cli_audit.specs.Seats.{IsCrewAt, IsCollectorAt};
ghost use Rattle.cli_findings.specs.Searches.{KnowsEnd};
ghost use Rattle.cli_audit.specs.Searches.{KnowsEndsOf, KnowsAllEnds};
ghost use Rattle.cli_audit.specs.Meshes.{IsMesh};

use crate::collector::Collector;
use crate::crew::Crew;
use crate::mesh::Mesh;
use aud_event::OutOfMemory;
use aud_facts::Facts;
use aud_know::Knowledge;
use aud_node::{CloseFault, Fleet, Pass, Running};
use aud_split::laws::known_is_kept;
use cli_findings::joined;
use std::sync::Wait;

/// The passes of a crew, and last that of the collector.
fn all_passes<J: Fleet>(collector: Collector<J>, crew: Crew<J>) -> Result<Vec<Pass<J>>, OutOfMemory>
    ensures { IfOk result (λ passes. passes.items ≡ crew.passes ++ collector.pass ∷ []) }
{
    let Collector { pass, .. } = collector;
    let Crew { mut passes, .. } = crew;
    passes.push(pass)?;
    Ok(passes)
}

/// What is answered where a node is not closed since memory ran out.
fn want_of_memory(_fault: CloseFault) -> OutOfMemory
    requires { _fault ≡ CloseFault.OutOfMemory }
{
    OutOfMemory
}

/// Closes a node, and answers what it knows. All its passes are there, so memory alone may be refused.
fn known_by<J: Fleet, S: Wait + Drop, R: Wait>(
    rt: &R,
    node: Running<J, S>,
    collector: Collector<J>,
    crew: Crew<J>,
) -> Result<Knowledge, OutOfMemory>
    requires collector { IsCollectorAt node collector }
    requires crew { IsCrewAt node crew }
    ensures plan { IfOk result (λ k. k.plan ≡ node.plan) }
    ensures ends { IfOk result (KnowsEndsOf crew.passes) }
{
    known_is_kept();
    let passes = all_passes(collector, crew)?;
    match node.close(rt, passes) {
        Ok(closed) => Ok(closed.known),
        Err((_, _, fault)) => Err(want_of_memory(fault)),
    }
}

/// Closes all nodes, and answers what they know together, if there is any node.
pub(crate) fn known_by_all<J: Fleet, S: Wait + Drop, R: Wait>(
    rt: &R,
    facts: &Facts,
    mesh: Mesh<J, S>,
) -> Result<Option<Knowledge>, OutOfMemory>
    requires { IsMesh facts.now.plan mesh.nodes.items mesh.collectors.items mesh.crews.items }
    ensures some { IfOk result (λ found. found ≡ None → (mesh.nodes.items ≡ []) × (mesh.crews.items ≡ [])) }
    ensures plan { IfOk result (λ found. IfSome found (λ k. k.plan ≡ facts.now.plan)) }
    ensures ends { IfOk result (λ found. IfSome found (KnowsAllEnds mesh.crews.items)) }
{
    let Mesh {
        mut nodes,
        mut collectors,
        mut crews,
    } = mesh;
    let Some(node) = nodes.pop() else {
        return Ok(None);
    };
    let Some(collector) = collectors.pop() else {
        unreachable!()
    };
    let Some(crew) = crews.pop() else {
        unreachable!()
    };
    let known = known_by(rt, node, collector, crew)?;
    let rest = Mesh {
        nodes,
        collectors,
        crews,
    };
    match known_by_all(rt, facts, rest)? {
        None => Ok(Some(known)),
        Some(others) => Ok(Some(joined(known, &others)?)),
    }
}
