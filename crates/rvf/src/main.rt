//! The program: the words of its command line, the system's files and standard output, and the exit code.
#![tactic(auto)]

ghost use Rattle.std.specs.Prelude.{◌≡◌, drop, map, string_bytes, [], IfOk, IfErr};
ghost use Rattle.std.specs.Process.{exit_status};
ghost use Rattle.rvf_core.specs.Outcome.{outside};
ghost use Rattle.rvf_core.specs.Status.{code_of};
ghost use Rattle.rvf.specs.Exit.{Exits};

use fv_base::{Files, Out, RealFiles, RealOut};
use rvf_core::{Status, run};
use std::alloc::Global;
use std::env::{self, Env};
use std::process::ExitCode;
use std::thread::{Builder, Threads};
use std::{io, rt};

/// The bytes of the stack that the work gets: the first of these that are to be had. The walk through modules and
/// blocks takes as much as a text is deep, and the least of them holds what 2,000,000 tokens can nest.
const STACKS: [usize; 3] = [1 << 32, 1 << 31, 1 << 30];

/// Without such a stack nothing is read, since a deep text would end the process.
fn main(rt: HostRuntime) -> ExitCode {
    let alloc = rt.alloc();
    for size in STACKS {
        let worker = Builder::new()
            .stack_size(size)
            .spawn(&rt, move || work(&rt, alloc));
        if let Ok(worker) = worker {
            return worker.join(&rt);
        }
    }
    coded(Status::Memory)
}

/// The whole work, over the system's files and standard output.
fn work<R: Threads + Sync + rt::Files + Print + Env + Alloc<A = Global>>(
    rt: &R,
    alloc: Global,
) -> ExitCode {
    let words = words(rt, alloc);
    exit(
        rt,
        alloc,
        words,
        &mut RealFiles::new(rt),
        &mut RealOut::new(rt),
    )
}

/// Runs on the words, and answers the exit code of how that ended.
fn exit<R: Threads + Sync, F: Files, O: Out>(
    rt: &R,
    alloc: Global,
    words: io::Result<Vec<String>>,
    files: &mut F,
    out: &mut O,
) -> ExitCode
    ensures answer { IfOk words (λ words. Exits (exit_status result) (record {
      words = map string_bytes words.items;
      before = outside (F.state files.old) (O.state out.old);
      now = outside (F.state files.new) (O.state out.new);
    })) }

    // Words that can't be had are no words of a command.
    ensures unread { IfErr words (λ fault. Exits (exit_status result) (record {
      words = [];
      before = outside (F.state files.old) (O.state out.old);
      now = outside (F.state files.new) (O.state out.new);
    })) }
{
    match words {
        Ok(words) => coded(run(rt, alloc, words.as_slice(), files, out)),
        Err(fault) if fault.kind() == io::ErrorKind::OutOfMemory => coded(Status::Memory),
        // A word that isn't UTF-8 is no word of any command.
        Err(_) => coded(run(rt, alloc, &[], files, out)),
    }
}

/// The exit code of the status.
fn coded(status: Status) -> ExitCode
    ensures { exit_status result ≡ code_of status }
{
    ExitCode::from(status.code())
}

/// The words behind the program's name, as the system tells them.
fn words(rt: &(impl Env + Alloc<A = Global>), alloc: Global) -> io::Result<Vec<String>> {
    Ok(behind_name(env::args(rt)?.collect(alloc)?))
}

/// All words but the first one, in order; none where there is none.
fn behind_name(words: Vec<String>) -> Vec<String>
    ensures { result.items ≡ drop 1 words.items }
{
    let mut words = words;
    if !words.is_empty() {
        words.remove(0);
    }
    words
}
