// Does what the words ask for with standard input, and prints one line.
#![tactic(auto)]

use aud_cli::{Cause, Ended, Usage, exit_status, job_of, read_whole, run_command};
use std::alloc::Global;
use std::io::{self, ErrorKind, Write};
use std::process::ExitCode;
use std::sync::Wait;
use std::thread::Threads;

/// How often standard input is read before the run gives up.
const MOST_READS: u64 = 1_000_000_000;

/// What the user reads where a word is no text.
const NO_TEXT: &str = "error: a word is not UTF-8\n";

fn printed(alloc: Global, text: &str) -> Usage {
    match String::from_str(alloc, text) {
        Ok(text) => Usage::Printed(text),
        Err(_) => Usage::OutOfMemory,
    }
}

/// Why the words were not read.
fn unread(alloc: Global, kind: ErrorKind) -> Usage {
    if kind == ErrorKind::OutOfMemory {
        return Usage::OutOfMemory;
    }
    printed(alloc, NO_TEXT)
}

/// The words, the program's name first.
fn words_of(rt: &HostRuntime, alloc: Global) -> Result<Vec<String>, Usage> {
    let words = match std::env::args(rt) {
        Ok(words) => words,
        Err(error) => return Err(unread(alloc, error.kind())),
    };
    match words.collect(alloc) {
        Ok(words) => Ok(words),
        Err(_) => Err(Usage::OutOfMemory),
    }
}

/// Does what the words ask for. Whoever has `threads` may start them, and wait.
fn answer<T: Threads + Wait + Sync>(
    rt: &HostRuntime,
    threads: &T,
    alloc: Global,
) -> Result<Ended, Usage> {
    let words = words_of(rt, alloc)?;
    let command = job_of(alloc, words.as_slice())?;
    let input = match read_whole(alloc, &mut rt.reader(), MOST_READS) {
        Ok(input) => input,
        Err(cause) => return Ok(Ended::Failed(cause)),
    };
    let (line, ended) = run_command(threads, alloc, &command, input);
    match io::writer(rt).write_all(&line) {
        Ok(()) => Ok(ended),
        Err(_) => Ok(Ended::Failed(Cause::Output)),
    }
}

fn main(rt: HostRuntime) -> ExitCode {
    let answer = answer(&rt, &rt, rt.alloc());
    match &answer {
        Err(usage) => {
            let _ = eprint!(rt; "{}", usage.text());
        }
        Ok(Ended::Failed(cause)) => {
            let _ = eprint!(rt; "{}", cause.text());
        }
        Ok(_) => {}
    }
    ExitCode::from(exit_status(&answer))
}
