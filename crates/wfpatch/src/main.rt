//! `wfpatch`: runs a program in a simulated process, as a script says, and writes its journal.
#![tactic(auto)]

use std::alloc::Global;
use std::io;
use std::process::ExitCode;
use std::rt::{Env, Files};
use wf_outside::{FsShelf, StdSink, Text};
use wf_status::Status;
use wf_top::top;

// The words of the command line behind the program's name. A word that isn't UTF-8 is a faulty
// command line.
fn words(rt: &(impl Env + AllocGlobal)) -> Result<Vec<Text>, Status> {
    let args = match std::env::args(rt) {
        Ok(args) => args,
        Err(error) if error.kind() == io::ErrorKind::OutOfMemory => return Err(Status::Memory),
        Err(_) => return Err(Status::Words),
    };
    let mut words = Vec::new(rt.alloc());
    for arg in args.skip(1) {
        if words.push(Text::from(arg.into_bytes())).is_err() {
            return Err(Status::Memory);
        }
    }
    Ok(words)
}

// What the command line asks for, on the files of the system and standard output.
fn run<R: Env + Files + Print + AllocGlobal>(rt: &R) -> Status {
    let words = match words(rt) {
        Ok(words) => words,
        Err(status) => return status,
    };
    let alloc = rt.alloc();
    let mut shelf = FsShelf::new(rt, alloc);
    let mut sink = StdSink::new(rt);
    top(alloc, &words, &mut shelf, &mut sink)
}

// The status's line on standard error, where it has one.
fn tell(rt: &impl Eprint, alloc: Global, status: Status) {
    if status == Status::Done {
        return;
    }
    let _ = match format!(in alloc; "{status}") {
        Ok(line) => eprintln!(rt; "{line}"),
        Err(_) => eprintln!(rt; "wfpatch: memory"),
    };
}

fn main(rt: HostRuntime) -> ExitCode {
    let status = run(&rt);
    tell(&rt, rt.alloc(), status);
    ExitCode::from(status.code())
}
