//! The run of any command over an input in memory.

ghost use Rattle.std.specs.Prelude.{IfErr, IfOk};
ghost use Rattle.cli_lines.specs.Jobs.{IsInRange};
ghost use Rattle.aud_cli.specs.Commands.{CommandOutcome, CommandSays, FailsBy};

use cli_audit::{NoGate, answer_audit};
use cli_lines::{Cause, Command, Ended, answer_text};
use std::alloc::Global;
use std::sync::Wait;
use std::thread::Threads;

/// The line that the command says of the input, with its line feed and what comes after it, and how a run ends that says it; else what
/// it failed for.
fn answer_of<R: Threads + Wait + Sync>(
    rt: &R,
    alloc: Global,
    command: &Command,
    input: Vec<u8>,
) -> Result<(Vec<u8>, Ended), Cause>
    requires { IsInRange command.now }
    ensures answer { IfOk result (λ answer. CommandSays command.now input.items answer.0.items answer.1) }
    ensures cause { IfErr result (FailsBy command.now) }
{
    match command {
        Command::Lines(job) => match answer_text(alloc, job, input) {
            Ok(answer) => Ok(answer),
            Err(_) => Err(Cause::Memory),
        },
        Command::Audit(job) => answer_audit(rt, alloc, job, &NoGate, input),
    }
}

/// Runs the command over the input, and hands out what is to be printed, and how the run ends.
///
/// What is handed out is one line that the command may say of the input, and after it the certificate or the refutation, if that is
/// asked for; where the run fails it is nothing, and the cause is memory, or in an audit a thread. It takes memory as `run_lines` and
/// `run_audit` do, and the input is not copied.
pub fn run_command<R: Threads + Wait + Sync>(
    rt: &R,
    alloc: Global,
    command: &Command,
    input: Vec<u8>,
) -> (Vec<u8>, Ended)
    requires { IsInRange command.now }
    ensures { CommandOutcome command.now input.items result.0.items result.1 }
{
    match answer_of(rt, alloc, command, input) {
        Ok(answer) => answer,
        Err(cause) => (Vec::new(alloc), Ended::Failed(cause)),
    }
}
