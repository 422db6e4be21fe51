//! Reads the problem in the working folder and prints all that it holds, or why it is refused.

#![tactic(auto)]

use anyhow::anyhow;
use faults::Fault;
use input::first_bytes;
use listing::Listing;
use records::load::load_table;
use std::process::ExitCode;
use std::{fs, io};

mod listing;

const PROBLEM: &str = "problem.rec";

/// The first bytes of the problem's file; none if it is missing.
fn problem_bytes(rt: &HostRuntime) -> io::Result<Vec<u8>> {
    match fs::open(rt, PROBLEM) {
        Ok(file) => first_bytes(rt.alloc(), file),
        Err(e) if e.kind() == io::ErrorKind::NotFound => Ok(Vec::new(rt.alloc())),
        Err(e) => Err(e),
    }
}

/// A refusal is an answer: its number and place, and a sentence for a person. Want of memory has neither, and is an error.
fn print_refusal(rt: &HostRuntime, fault: Fault) -> anyhow::Result<()> {
    let (number, place) = fault.refused()?;
    println!(rt; "refused {number} {place}")?;
    rt.eprintln(fault)?;
    Ok(())
}

/// The file's name stands before its error. `map_err` would be no plainer than the `match`: `format!` may itself fail, so that its closure
/// would need a `?` of its own.
fn run(rt: &HostRuntime) -> anyhow::Result<()> {
    let bytes = match problem_bytes(rt) {
        Ok(bytes) => bytes,
        Err(e) => return Err(anyhow!(format!(in rt.alloc(); "{PROBLEM}: {e}")?)),
    };
    match load_table(rt.alloc(), bytes.as_slice()) {
        Ok(table) => {
            rt.println("ok")?;
            rt.print(Listing(table.contents()))?;
            Ok(())
        }
        Err(fault) => print_refusal(rt, fault),
    }
}

/// An error is printed once, under the program's name.
fn main(rt: HostRuntime) -> ExitCode {
    match run(&rt) {
        Ok(()) => ExitCode::SUCCESS,
        Err(e) => {
            let _ = eprintln!(rt; "problem_show: {e}");
            ExitCode::FAILURE
        }
    }
}
