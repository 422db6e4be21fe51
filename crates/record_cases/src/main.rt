//! Takes each file that cases.txt names, one to a line, once by Load, once record by record by Add, and once as one record by Add, and prints how it is answered:
//! the number and place of its refusal, or that it is a problem. A problem is written as records again: how many bytes that gives, their checksum,
//! and whether they are the file's own or those of its records in another order.

#![tactic(auto)]

ghost use Rattle.std.specs.Prelude.{◌<◌, length};

use draft::draft::Draft;
use faults::Fault;
use input::first_bytes;
use records::load::{add, load_table};
use std::alloc::Global;
use std::str::from_utf8;
use std::{fs, io};
use table::sealed::Table;
use writer::write::write;

const CASES: &str = "cases.txt";

/// The record at the front of some bytes, and what follows it; all of them where there is no whole one.
fn piece(bytes: &[u8]) -> (&[u8], &[u8])
    requires { 0 < length bytes.now }
    ensures { length result.1.now < length bytes.now }
{
    let size = match bytes {
        [l0, l1, ..] => 2 + usize::from(u16::from_le_bytes([*l0, *l1])),
        _ => bytes.len(),
    };
    bytes.split_at(size.min(bytes.len()))
}

/// The table of a file whose records are added one by one.
fn add_all(heap: Global, bytes: &[u8]) -> Result<Table, Fault> {
    let mut draft = Draft::blank(heap);
    let mut left = bytes;
    while !left.is_empty() {
        let (record, rest) = piece(left);
        add(&mut draft, record)?;
        left = rest;
    }
    draft.ask_seal()?;
    Ok(draft.seal().unwrap())
}

/// A number that tells two lists of bytes apart, most likely: each byte added to 31 times what came before, in 32 bits.
fn checksum(bytes: &[u8]) -> u32 {
    bytes.iter().fold(
        0,
        |sum: u32, b| sum.wrapping_mul(31).wrapping_add(u32::from(*b)),
    )
}

/// The answer to a file: a problem by what it is as records, or the number and the place of the refusal.
type Answer = Result<Vec<u8>, (u16, usize)>;

/// Want of memory is no answer to a case, and is an error.
fn answer(rt: &HostRuntime, outcome: Result<Table, Fault>) -> anyhow::Result<Answer> {
    match outcome {
        Ok(table) => Ok(Ok(write(rt.alloc(), &table)?)),
        Err(fault) => Ok(Err(fault.refused()?)),
    }
}

fn print_refusal(rt: &HostRuntime, how: &str, (number, place): (u16, usize)) -> io::Result<()> {
    print!(rt; " {how} refused {number} {place}")
}

fn print_answer(rt: &HostRuntime, how: &str, answer: &Answer, bytes: &[u8]) -> io::Result<()> {
    match answer {
        Ok(written) => {
            let order = if written.as_slice() == bytes {
                "same"
            } else {
                "reordered"
            };
            print!(rt;
                " {how} ok {} {} {order}",
                written.len(),
                checksum(written.as_slice())
            )
        }
        Err(refusal) => print_refusal(rt, how, *refusal),
    }
}

/// The bytes of a whole file as one record, which they are only where the file has one.
fn print_alone(rt: &HostRuntime, bytes: &[u8]) -> anyhow::Result<()> {
    let mut draft = Draft::blank(rt.alloc());
    match add(&mut draft, bytes) {
        Ok(()) => print!(rt; " alone ok")?,
        Err(fault) => print_refusal(rt, "alone", fault.refused()?)?,
    }
    Ok(())
}

fn run(rt: &HostRuntime) -> anyhow::Result<()> {
    let cases = first_bytes(rt.alloc(), fs::open(rt, CASES)?)?;
    for name in from_utf8(cases.as_slice())?.lines() {
        let file = first_bytes(rt.alloc(), fs::open(rt, name)?)?;
        let bytes = file.as_slice();
        rt.print(name)?;
        print_answer(
            rt,
            "loaded",
            &answer(rt, load_table(rt.alloc(), bytes))?,
            bytes,
        )?;
        print_answer(rt, "added", &answer(rt, add_all(rt.alloc(), bytes))?, bytes)?;
        print_alone(rt, bytes)?;
        println!(rt)?;
    }
    Ok(())
}

fn main(rt: HostRuntime) -> anyhow::Result<()> {
    run(&rt)
}
