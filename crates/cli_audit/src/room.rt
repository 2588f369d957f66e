//! For how many workers there are addresses.

ghost use Rattle.std.specs.Prelude.{◌≡◌, ◌≤◌};
ghost use Rattle.cli_lines.specs.Jobs.{IsAuditJob};

use cli_lines::AuditJob;
use std::alloc::Global;

/// How many bytes of addresses a thread takes: its stack, and what the C library reserves for its allocations.
const THREAD: usize = 72 << 20;

/// How many all threads take together, beside that: what their searches keep, and the facts.
const ALL: usize = 1152 << 20;

/// Whether there are addresses for so many threads. They are asked for at once and given back.
fn has_room(alloc: Global, threads: usize) -> bool {
    let size = threads.saturating_mul(THREAD).saturating_add(ALL);
    Vec::<u8>::with_capacity(alloc, size).is_ok()
}

/// Of how many workers of each node there may be threads, of those that the words ask for: one at least.
fn workers_with_room(alloc: Global, job: &AuditJob) -> u32
    requires { 1 ≤ job.now.workers }
    ensures { (1 ≤ result) × (result ≤ job.now.workers) }
{
    for fewer in 0..job.workers {
        let workers = job.workers - fewer;
        let threads = (job.nodes as usize).saturating_mul(workers as usize);
        if has_room(alloc, threads) {
            return workers;
        }
    }
    1
}

/// The audit with no more workers than there are addresses for. A thread that gets none is refused its first allocation, and the
/// audit would fail for it.
pub(crate) fn with_room(alloc: Global, job: &AuditJob) -> AuditJob
    requires { IsAuditJob job.now }
    ensures job { IsAuditJob result }
    ensures nodes { result.nodes ≡ job.now.nodes }
    ensures budget { result.budget ≡ job.now.budget }
{
    AuditJob {
        nodes: job.nodes,
        workers: workers_with_room(alloc, job),
        budget: job.budget,
    }
}
