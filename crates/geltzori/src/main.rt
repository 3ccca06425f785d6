// geltzori [SESSION..]: carries out sessions of calls, each on a unit of its own, and prints what each call did.
#![tactic(auto)]

mod command;
mod faults;
mod hex;
mod replay;
mod session;
mod units;

use faults::Fault;
use session::Session;
use std::process::ExitCode;
use std::rt::{Env, Files};
use std::{env, fs, io};

fn main(rt: HostRuntime) -> ExitCode {
    match run(&rt) {
        Ok(()) => ExitCode::SUCCESS,
        Err(fault) => {
            // the status tells it too, where standard error takes nothing
            let _ = eprintln!(rt; "geltzori: {fault}");
            ExitCode::FAILURE
        }
    }
}

fn run(rt: &(impl Env + Input + Files + Print + AllocGlobal)) -> Result<(), Fault> {
    let mut paths = env::args(rt)?.skip(1).peekable();
    if paths.peek().is_none() {
        return carry_out(rt, io::read_to_string(rt.alloc(), rt.reader())?);
    }
    for path in paths {
        carry_out(rt, fs::read_to_string(rt, path)?)?;
    }
    Ok(())
}

// The whole session is read before any of it is carried out, on a unit of its own.
fn carry_out(rt: &(impl Print + Files + AllocGlobal), text: String) -> Result<(), Fault> {
    match Session::parse(rt, &text)? {
        Some(session) => units::run(rt, &session),
        None => Ok(()),
    }
}
