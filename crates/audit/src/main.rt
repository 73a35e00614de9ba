//! Looks at a run from outside, behind each of its lines.
//!
//! `audit` reads a schedule from standard input and runs it in a cluster. Behind each line it looks for
//! what the rules promise: each message has its cause; the committed transactions, run one after another,
//! meet no read that differs; and redo of a copy of the storage gives just the pages that they leave. It
//! prints `entries N` where all of that held behind each of the N lines, and else what was wrong behind
//! which line, with status 1.
#![tactic(auto)]

mod judging;
mod running;

use running::{Fault, run};
use std::alloc::Global;
use std::io;
use std::io::{Input, Read};
use std::process::ExitCode;

/// A promise that isn't kept, or a line that can't be run.
const BAD: u8 = 1;

/// Standard input or output failed.
const NO_END: u8 = 4;

/// The bytes that are asked of standard input at once.
const PIECE: usize = 65_536;

fn main(rt: HostRuntime) -> ExitCode {
    let Ok(input) = read_input(rt.alloc(), &rt) else {
        return ExitCode::from(NO_END);
    };
    match print_result(&rt, input.as_slice()) {
        Ok(status) => ExitCode::from(status),
        Err(_) => ExitCode::from(NO_END),
    }
}

/// All of standard input.
fn read_input<I: Input>(alloc: Global, rt: &I) -> io::Result<Vec<u8>> {
    let mut reader = rt.reader();
    let mut piece = vec![in alloc; 0u8; PIECE]?;
    let mut input = Vec::new(alloc);
    for _ in 0..u64::MAX {
        let count = reader.read(piece.as_mut_slice())?;
        match piece.get(..count) {
            None | Some([]) => return Ok(input),
            Some(bytes) => input.extend_from_slice(bytes)?,
        }
    }
    Ok(input)
}

/// Runs the schedule and prints what was found.
fn print_result(rt: &HostRuntime, input: &[u8]) -> io::Result<u8> {
    match run(rt.alloc(), input) {
        Ok(entries) => {
            println!(rt; "entries {entries}")?;
            Ok(0)
        }
        Err(Fault { line, what }) => {
            println!(rt; "bad {line} {}", what.word())?;
            Ok(BAD)
        }
    }
}
