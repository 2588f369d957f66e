//! What is said at the end of an audit.

ghost use Rattle.std.specs.Prelude.{◌≡◌, ◌↔◌, IfOk, IsFalse, IsTrue};
ghost use Rattle.cli_lines.specs.Line.{SetSays};
ghost use Rattle.cli_findings.specs.Says.{AuditSays};
ghost use Rattle.cli_findings.specs.Searches.{HasAll, WasSearched, WasSearchedWith};

use crate::searching::TaskSearch;
use aud_event::OutOfMemory;
use aud_facts::Facts;
use aud_know::laws::knowledge_is_norm;
use aud_know::{Knowledge, Verdict};
use aud_lattice::Lattice;
use aud_report::Said;
use aud_split::laws::{known_is_kept, search_is_said};
use cli_lines::{Request, judge_facts};
use std::alloc::Global;

/// What all nodes know together, and what was searched to its end, if anything was.
#[derive(Drop)]
pub struct Findings {
    pub known: Knowledge,
    pub search: Option<TaskSearch>,
}

/// Whether these facts, and no others, are known.
pub fn has_all(known: &Knowledge, facts: &Facts) -> bool
    ensures { IsTrue result ↔ HasAll facts.now known.now }
{
    known.plan().same(facts.plan()) && known.facts().same(facts.set())
}

/// What is said where the facts read are decided anew.
fn decided(alloc: Global, budget: Option<u64>, facts: &Facts) -> Result<Said, OutOfMemory>
    ensures { IfOk result (SetSays (AuditSays budget) facts.now.plan facts.now.facts) }
{
    judge_facts(alloc, Request::Decide(None, false), facts)
}

/// Whether the facts read are to be decided anew: a verdict of unfinished says what an audit may only where there is a budget,
/// and the tasks were searched.
fn is_open(verdict: &Verdict, budget: Option<u64>, search: &Option<TaskSearch>) -> bool
    ensures { IsFalse result → verdict.now ≡ Verdict.Unfinished → WasSearchedWith budget search.now }
{
    match verdict {
        Verdict::Unfinished => budget.is_none() || search.is_none(),
        _ => false,
    }
}

/// What is said of the facts read by what was found: the verdict on what is known, where no others are known and it says what
/// an audit may; else what is decided anew.
pub fn conclude(
    alloc: Global,
    budget: Option<u64>,
    facts: &Facts,
    findings: &Findings,
) -> Result<Said, OutOfMemory>
    requires { WasSearched facts.now budget findings.now.known findings.now.search }
    ensures { IfOk result (SetSays (AuditSays budget) facts.now.plan facts.now.facts) }
{
    known_is_kept();
    knowledge_is_norm();
    search_is_said::<Global>();
    let _known = findings.known.facts();
    let _facts = facts.set();
    let verdict = findings.known.verdict()?;
    if is_open(&verdict, budget, &findings.search) || !has_all(&findings.known, facts) {
        return decided(alloc, budget, facts);
    }
    Ok(Said::Verdict(verdict))
}
