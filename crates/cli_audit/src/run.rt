//! The run of an audit over the lines of an input.

ghost use Rattle.std.specs.Prelude.{◌≡◌, ◌<◌, ◌≤◌, ℕ, IfErr, IfOk, IfSome, OnOk, length};
ghost use Rattle.cli_lines.specs.Line.{FactsSay, SetSays};
ghost use Rattle.cli_lines.specs.Jobs.{IsAuditJob};
ghost use Rattle.cli_findings.specs.Says.{AuditSays};
ghost use Rattle.cli_findings.specs.Searches.{IsSearchOf, WasSearched, IsSearchWith};
ghost use Rattle.cli_audit.specs.Lines.{AuditLine, AuditOutcome, IsAuditLine, IsOfAudit};
ghost use Rattle.cli_audit.specs.Searches.{SearchHasEnded};
ghost use Rattle.cli_audit.specs.Seats.{AreOpened};
ghost use Rattle.cli_audit.specs.Meshes.{IsMesh};

use crate::closing::known_by_all;
use crate::fault::AuditFault;
use crate::mesh::{Mesh, open_all, start_all};
use crate::room::with_room;
use aud_event::OutOfMemory;
use aud_facts::Facts;
use aud_node::{Fleet, Opened};
use aud_report::{ReadAllFault, Said, Sink, Source, read_all, write_all, write_line};
use aud_search::{Scene, Shared};
use aud_witness::Prefix;
use cli_findings::{Findings, TaskSearch, conclude, search_of};
use cli_input::{Input, take_input};
use cli_lines::{AuditJob, Cause, Ended, end_of, refuse_input};
use node_pool::Gate;
use std::alloc::Global;
use std::marker::Brand;
use std::sync::{Arc, Wait};
use std::thread::Threads;

/// The budget of few tasks where the words give none, when they are searched first.
const SOON: u64 = 256;

/// The budget of the tasks that are left open after the search by few prefixes, when they are searched again.
const AGAIN: u64 = 1 << 20;

/// Their budget when they are searched for the last time.
const LAST: u64 = 1 << 24;

/// The search of the facts' history, where the first node has all facts, they are sealed and it is well-formed.
fn search_for(
    alloc: Global,
    has_all: bool,
    facts: &Facts,
    budget: Option<u64>,
) -> Result<Option<TaskSearch>, OutOfMemory>
    ensures { IfOk result (λ found. IfSome found (IsSearchWith facts.now budget)) }
{
    if has_all {
        search_of(alloc, facts, budget)
    } else {
        Ok(None)
    }
}

/// How many workers all nodes have.
fn workers_of(job: &AuditJob) -> usize {
    (job.nodes as usize).saturating_mul(job.workers as usize)
}

/// How many tasks a worker has at most where they are searched before all orders are searched as one.
const FEW: usize = 64;

/// Whether there are many tasks for so many workers.
fn has_many(search: &TaskSearch, workers: usize) -> bool {
    search.tasks.len() > workers.saturating_mul(FEW)
}

/// Has all orders searched as one task, with the budget of one, and says whether the first node knows an order that shows the facts
/// then: what is decided soon is so before it is divided. Where all are refuted, each task is found refuted at once.
fn search_whole<
    H: Scene + Send + Sync,
    J: Fleet + Send + Sync,
    S: Wait + Drop + Send,
    G: Gate<Prefix> + Sync,
    R: Threads + Wait + Sync,
>(
    rt: &R,
    alloc: Global,
    mesh: &mut Mesh<J, S>,
    facts: &Facts,
    search: &TaskSearch,
    shared: Option<&Shared<H>>,
    gate: &G,
) -> Result<bool, OutOfMemory>
    requires named { search.now.shape.value ≡ H.shape }
    requires mesh { IsMesh facts.now.plan mesh.old.nodes.items mesh.old.collectors.items mesh.old.crews.items }
    requires few { length mesh.old.nodes.items ≤ 8 }
    requires some { 0 < length mesh.old.nodes.items }
    requires search { IsSearchOf facts.now search.now.shape.value search.now.tasks.items }
    ensures nodes { mesh.new.nodes ≡ mesh.old.nodes }
    ensures mesh { OnOk result (IsMesh facts.now.plan mesh.new.nodes.items mesh.new.collectors.items mesh.new.crews.items) }
{
    let whole = search.whole(alloc)?;
    mesh.search(rt, alloc, &whole, shared, gate)?;
    mesh.first_shows(facts)
}

/// Has the first tasks searched, one for each worker, where there are more, and says whether the first node knows an order that
/// shows the facts then. Such an order is less than any that begins with another task.
fn search_first<
    H: Scene + Send + Sync,
    J: Fleet + Send + Sync,
    S: Wait + Drop + Send,
    G: Gate<Prefix> + Sync,
    R: Threads + Wait + Sync,
>(
    rt: &R,
    alloc: Global,
    mesh: &mut Mesh<J, S>,
    facts: &Facts,
    search: &TaskSearch,
    shared: Option<&Shared<H>>,
    job: &AuditJob,
    gate: &G,
) -> Result<bool, OutOfMemory>
    requires named { search.now.shape.value ≡ H.shape }
    requires mesh { IsMesh facts.now.plan mesh.old.nodes.items mesh.old.collectors.items mesh.old.crews.items }
    requires few { length mesh.old.nodes.items ≤ 8 }
    requires some { 0 < length mesh.old.nodes.items }
    requires search { IsSearchOf facts.now search.now.shape.value search.now.tasks.items }
    ensures nodes { mesh.new.nodes ≡ mesh.old.nodes }
    ensures mesh { OnOk result (IsMesh facts.now.plan mesh.new.nodes.items mesh.new.collectors.items mesh.new.crews.items) }
{
    let Some(first) = search.first(alloc, workers_of(job))? else {
        return Ok(false);
    };
    mesh.search(rt, alloc, &first, shared, gate)?;
    mesh.first_shows(facts)
}

/// Has the tasks that were left open searched again, with this budget, unless the first node knows an order that shows the facts.
fn search_again<
    H: Scene + Send + Sync,
    J: Fleet + Send + Sync,
    S: Wait + Drop + Send,
    G: Gate<Prefix> + Sync,
    R: Threads + Wait + Sync,
>(
    rt: &R,
    alloc: Global,
    mesh: &mut Mesh<J, S>,
    facts: &Facts,
    search: &mut TaskSearch,
    budget: u64,
    shared: Option<&Shared<H>>,
    gate: &G,
) -> Result<(), OutOfMemory>
    requires named { search.old.shape.value ≡ H.shape }
    requires mesh { IsMesh facts.now.plan mesh.old.nodes.items mesh.old.collectors.items mesh.old.crews.items }
    requires few { length mesh.old.nodes.items ≤ 8 }
    requires some { 0 < length mesh.old.nodes.items }
    requires search { IsSearchOf facts.now search.old.shape.value search.old.tasks.items }
    ensures search { (search.new.shape ≡ search.old.shape) × (search.new.tasks ≡ search.old.tasks) }
    ensures nodes { mesh.new.nodes ≡ mesh.old.nodes }
    ensures mesh { OnOk result (IsMesh facts.now.plan mesh.new.nodes.items mesh.new.collectors.items mesh.new.crews.items) }
{
    if mesh.first_shows(facts)? {
        return Ok(());
    }
    search.budget = budget;
    mesh.search(rt, alloc, search, shared, gate)
}

/// Has each task searched a little, where they are few for so many workers, and says whether the first node knows an order that shows
/// the facts then.
fn search_few<
    H: Scene + Send + Sync,
    J: Fleet + Send + Sync,
    S: Wait + Drop + Send,
    G: Gate<Prefix> + Sync,
    R: Threads + Wait + Sync,
>(
    rt: &R,
    alloc: Global,
    mesh: &mut Mesh<J, S>,
    facts: &Facts,
    search: &mut TaskSearch,
    shared: Option<&Shared<H>>,
    job: &AuditJob,
    gate: &G,
) -> Result<bool, OutOfMemory>
    requires named { search.old.shape.value ≡ H.shape }
    requires mesh { IsMesh facts.now.plan mesh.old.nodes.items mesh.old.collectors.items mesh.old.crews.items }
    requires few { length mesh.old.nodes.items ≤ 8 }
    requires some { 0 < length mesh.old.nodes.items }
    requires search { IsSearchOf facts.now search.old.shape.value search.old.tasks.items }
    ensures search { (search.new.shape ≡ search.old.shape) × (search.new.tasks ≡ search.old.tasks) }
    ensures nodes { mesh.new.nodes ≡ mesh.old.nodes }
    ensures mesh { OnOk result (IsMesh facts.now.plan mesh.new.nodes.items mesh.new.collectors.items mesh.new.crews.items) }
{
    if has_many(search, workers_of(job)) {
        return Ok(false);
    }
    search_again(rt, alloc, mesh, facts, search, SOON, shared, gate)?;
    mesh.first_shows(facts)
}

/// Has the tasks searched by rounds, until an order that shows the facts is known. Where they are few for so many workers, each is searched
/// a little before all orders are searched as one task.
fn search_by_rounds<
    H: Scene + Send + Sync,
    J: Fleet + Send + Sync,
    S: Wait + Drop + Send,
    G: Gate<Prefix> + Sync,
    R: Threads + Wait + Sync,
>(
    rt: &R,
    alloc: Global,
    mesh: &mut Mesh<J, S>,
    facts: &Facts,
    search: &mut TaskSearch,
    shared: Option<&Shared<H>>,
    job: &AuditJob,
    gate: &G,
) -> Result<(), OutOfMemory>
    requires named { search.old.shape.value ≡ H.shape }
    requires mesh { IsMesh facts.now.plan mesh.old.nodes.items mesh.old.collectors.items mesh.old.crews.items }
    requires few { length mesh.old.nodes.items ≤ 8 }
    requires some { 0 < length mesh.old.nodes.items }
    requires search { IsSearchOf facts.now search.old.shape.value search.old.tasks.items }
    ensures nodes { mesh.new.nodes ≡ mesh.old.nodes }
    ensures mesh { OnOk result (IsMesh facts.now.plan mesh.new.nodes.items mesh.new.collectors.items mesh.new.crews.items) }
{
    let budget = search.budget;
    if search_few(rt, alloc, mesh, facts, search, shared, job, gate)? {
        return Ok(());
    }
    search.budget = budget;
    if search_whole(rt, alloc, mesh, facts, search, shared, gate)? {
        return Ok(());
    }
    if search_first(rt, alloc, mesh, facts, search, shared, job, gate)? {
        return Ok(());
    }
    search_again(rt, alloc, mesh, facts, search, budget, shared, gate)?;
    search_again(rt, alloc, mesh, facts, search, AGAIN, shared, gate)?;
    search_again(rt, alloc, mesh, facts, search, LAST, shared, gate)
}

/// Has all tasks of the history that the scene names searched, as `search_tasks` says it, over what all workers share.
fn search_all<
    H: Scene + Send + Sync,
    J: Fleet + Send + Sync,
    S: Wait + Drop + Send,
    G: Gate<Prefix> + Sync,
    R: Threads + Wait + Sync,
>(
    rt: &R,
    alloc: Global,
    mesh: &mut Mesh<J, S>,
    facts: &Facts,
    search: TaskSearch,
    job: &AuditJob,
    gate: &G,
) -> Result<Option<TaskSearch>, OutOfMemory>
    requires named { search.shape.value ≡ H.shape }
    requires mesh { IsMesh facts.now.plan mesh.old.nodes.items mesh.old.collectors.items mesh.old.crews.items }
    requires few { length mesh.old.nodes.items ≤ 8 }
    requires some { 0 < length mesh.old.nodes.items }
    requires search { IsSearchWith facts.now job.now.budget search }
    ensures nodes { mesh.new.nodes ≡ mesh.old.nodes }
    ensures mesh { OnOk result (IsMesh facts.now.plan mesh.new.nodes.items mesh.new.collectors.items mesh.new.crews.items) }
    ensures search { IfOk result (λ found. IfSome found (IsSearchWith facts.now job.now.budget)) }
    ensures ended { IfOk result (λ found. IfSome found (λ s. SearchHasEnded s mesh.new.crews.items)) }
{
    let mut search = search;
    let shared = Shared::<H>::among(alloc, workers_of(job));
    let shared = shared.as_ref();
    if job.budget.is_none() {
        search_by_rounds(rt, alloc, mesh, facts, &mut search, shared, job, gate)?;
        return Ok(None);
    }
    if search_first(rt, alloc, mesh, facts, &search, shared, job, gate)? {
        return Ok(None);
    }
    mesh.search(rt, alloc, &search, shared, gate)?;
    Ok(Some(search))
}

/// Has all tasks searched, if there are any, unless the first ones lead to an order that shows the facts. What is answered is the
/// search if all its tasks ended with the budget that the words give. Where they give none, tasks that are left open are searched
/// again with greater budgets, which is cheap where several workers share what they refuted.
fn search_tasks<
    J: Fleet + Send + Sync,
    S: Wait + Drop + Send,
    G: Gate<Prefix> + Sync,
    R: Threads + Wait + Sync,
>(
    rt: &R,
    alloc: Global,
    mesh: &mut Mesh<J, S>,
    facts: &Facts,
    search: Option<TaskSearch>,
    job: &AuditJob,
    gate: &G,
) -> Result<Option<TaskSearch>, OutOfMemory>
    requires mesh { IsMesh facts.now.plan mesh.old.nodes.items mesh.old.collectors.items mesh.old.crews.items }
    requires few { length mesh.old.nodes.items ≤ 8 }
    requires some { 0 < length mesh.old.nodes.items }
    requires search { IfSome search (IsSearchWith facts.now job.now.budget) }
    ensures nodes { mesh.new.nodes ≡ mesh.old.nodes }
    ensures mesh { OnOk result (IsMesh facts.now.plan mesh.new.nodes.items mesh.new.collectors.items mesh.new.crews.items) }
    ensures search { IfOk result (λ found. IfSome found (IsSearchWith facts.now job.now.budget)) }
    ensures ended { IfOk result (λ found. IfSome found (λ s. SearchHasEnded s mesh.new.crews.items)) }
{
    match search {
        Some(search) => search_all::<Brand, _, _, _, _>(rt, alloc, mesh, facts, search, job, gate),
        None => Ok(None),
    }
}

/// What the nodes of new histories find together, each of which has taken its share of the facts.
fn findings_of<J: Fleet + Send + Sync, G: Gate<Prefix> + Sync, R: Threads + Wait + Sync>(
    rt: &R,
    alloc: Global,
    opened: Vec<Opened>,
    job: &AuditJob,
    gate: &G,
    facts: &Facts,
) -> Result<Findings, AuditFault>
    requires opened { AreOpened J.book opened.items }
    requires planned { (i : ℕ) → J.plan i ≡ facts.now.plan }
    requires job { IsAuditJob job.now }
    requires count { length opened.items ≡ job.now.nodes }
    ensures { IfOk result (λ f. WasSearched facts.now job.now.budget f.known f.search) }
{
    let mut mesh = start_all::<J, R>(rt, alloc, opened, facts.plan(), job.workers)?;
    mesh.share(rt, alloc, facts)?;
    let has_all = mesh.first_has_all(facts)?;
    let wanted = search_for(alloc, has_all, facts, job.budget)?;
    let search = search_tasks(rt, alloc, &mut mesh, facts, wanted, job, gate)?;
    match known_by_all(rt, facts, mesh)? {
        Some(known) => Ok(Findings { known, search }),
        None => unreachable!(),
    }
}

/// What an audit says of the facts that were read.
fn audit_facts<G: Gate<Prefix> + Sync, R: Threads + Wait + Sync>(
    rt: &R,
    alloc: Global,
    job: &AuditJob,
    gate: &G,
    facts: &Facts,
) -> Result<Said, AuditFault>
    requires { IsAuditJob job.now }
    ensures { IfOk result (SetSays (AuditSays job.now.budget) facts.now.plan facts.now.facts) }
{
    let opened = open_all(alloc, job.nodes)?;
    let job = with_room(alloc, job);
    let findings = findings_of::<Brand, _, _>(rt, alloc, opened, &job, gate, facts)?;
    Ok(conclude(alloc, job.budget, facts, &findings)?)
}

fn audit_input<G: Gate<Prefix> + Sync, R: Threads + Wait + Sync>(
    rt: &R,
    alloc: Global,
    job: &AuditJob,
    gate: &G,
    input: Input,
) -> Result<Said, AuditFault>
    requires { IsAuditJob job.now }
    ensures { IfOk result (FactsSay (AuditSays job.now.budget) input) }
{
    let (plan, list) = input.into_parts();
    let plan = Arc::new(alloc, plan).map_err(|_| OutOfMemory)?;
    let facts = Facts::from_vec(alloc, plan, list)?;
    audit_facts(rt, alloc, job, gate, &facts)
}

/// What an audit says of a text.
fn audit_text<G: Gate<Prefix> + Sync, R: Threads + Wait + Sync>(
    rt: &R,
    alloc: Global,
    job: &AuditJob,
    gate: &G,
    text: Vec<u8>,
) -> Result<Said, AuditFault>
    requires { IsAuditJob job.now }
    ensures { IfOk result (AuditLine job.now.budget text.items) }
{
    match take_input(alloc, text) {
        Ok(input) => audit_input(rt, alloc, job, gate, input),
        Err(fault) => Ok(refuse_input(fault)?),
    }
}

/// The line that an audit says of a text, with its line feed, and how the run ends that says it; else what it failed for. All
/// pools share the gate. It waits until every worker has ended. It takes memory as `run_audit` does, and does not copy the text.
pub fn answer_audit<G: Gate<Prefix> + Sync, R: Threads + Wait + Sync>(
    rt: &R,
    alloc: Global,
    job: &AuditJob,
    gate: &G,
    text: Vec<u8>,
) -> Result<(Vec<u8>, Ended), Cause>
    requires { IsAuditJob job.now }
    ensures line { IfOk result (λ answer. IsAuditLine job.now.budget text.items answer.0.items answer.1) }
    ensures cause { IfErr result IsOfAudit }
{
    let said = match audit_text(rt, alloc, job, gate, text) {
        Ok(said) => said,
        Err(fault) => return Err(fault.cause()),
    };
    match write_line(alloc, &said) {
        Ok(line) => Ok((line, end_of(&said))),
        Err(_) => Err(Cause::Memory),
    }
}

/// Reads all that the source has left, audits it with so many nodes and workers, and writes the one line that the audit says of
/// it. All pools share the gate.
///
/// Where it fails a beginning of that line went out, and what was read stays read. It takes memory by the size of the text, for each
/// node and each worker; what all workers keep of what they refuted takes up to about 1 GiB more.
pub fn run_audit<G: Gate<Prefix> + Sync, R: Threads + Wait + Sync, I: Source, O: Sink>(
    rt: &R,
    alloc: Global,
    job: &AuditJob,
    gate: &G,
    source: &mut I,
    sink: &mut O,
) -> Ended
    requires job { IsAuditJob job.now }
    requires source { I.ready source.old }
    requires sink { O.ready sink.old }
    ensures { AuditOutcome (AuditLine job.now.budget (I.left source.old))
        (record { source_failures = I.failures source.old; sink_failures = O.failures sink.old; held = O.held sink.old })
        (record { source_failures = I.failures source.new; sink_failures = O.failures sink.new; held = O.held sink.new })
        result }
{
    let text = match read_all(alloc, source) {
        Ok(text) => text,
        Err(ReadAllFault::Failed) => return Ended::Failed(Cause::Input),
        Err(ReadAllFault::OutOfMemory) => return Ended::Failed(Cause::Memory),
    };
    let (line, end) = match answer_audit(rt, alloc, job, gate, text) {
        Ok(answer) => answer,
        Err(cause) => return Ended::Failed(cause),
    };
    match write_all(sink, line.as_slice()) {
        Ok(()) => end,
        Err(_) => Ended::Failed(Cause::Output),
    }
}
