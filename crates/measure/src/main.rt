//! Runs what is measured and prints counts alone; times are taken from outside.
//!
//! `measure WORD N` or `measure WORD N ROUNDS`, with one of these words:
//!
//! - `one-node`: a schedule of one node with N events is replayed in memory;
//! - `locks`: N transactions wait to write one page and are granted one after another;
//! - `settle`: N transactions wait to read one page and are granted in one settling;
//! - `begin`, `add`, `wait`, `set-kind`, `read`, `end`: these calls of open transactions, while N
//!   are open;
//! - `hit`, `replace`: a page of a full buffer of N frames is used again, or another one takes the
//!   place of the last one in use;
//! - `prepare`, `prepare-large`, `prepare-ranges`: redo is planned over a log of N records, with
//!   images of 8 bytes, with images of 1,024 bytes, and with one changed byte.
#![tactic(auto)]

mod buffers;
mod locks;
mod one_node;
mod redo;
mod transactions;
mod words;

use pcl_base::NoMemory;
use std::alloc::Global;
use std::process::ExitCode;
use std::{env, io};
use words::{Measured, named};

/// The words are no measurement.
const NO_WORDS: u8 = 2;

/// Want of memory, or counts that can't be printed.
const NO_MEMORY: u8 = 9;

/// What the words ask for.
struct Asked {
    measured: Measured,
    size: u32,
    rounds: u32,
}

fn main(rt: HostRuntime) -> ExitCode {
    let Some(asked) = words_of(&rt) else {
        return ExitCode::from(NO_WORDS);
    };
    match report(&rt, asked) {
        Ok(status) => ExitCode::from(status),
        Err(_) => ExitCode::from(NO_MEMORY),
    }
}

/// The measurement of the program's words.
fn words_of(rt: &HostRuntime) -> Option<Asked> {
    let mut args = env::args(rt).ok()?.skip(1);
    let word = args.next()?;
    let size = args.next()?;
    let rounds = match args.next() {
        None => 1,
        Some(rounds) => rounds.as_str().parse::<u32>().ok()?,
    };
    Some(Asked {
        measured: named(word.as_str())?,
        size: size.as_str().parse::<u32>().ok()?,
        rounds,
    })
}

/// Runs a measurement and prints its counts.
fn report(rt: &HostRuntime, asked: Asked) -> io::Result<u8> {
    let Asked {
        measured,
        size,
        rounds,
    } = asked;
    match measured {
        Measured::OneNode => report_one_node(rt, size),
        _ => match count(rt.alloc(), measured, size, rounds) {
            Ok(count) => {
                println!(rt; "count {count}")?;
                Ok(0)
            }
            Err(NoMemory) => Ok(NO_MEMORY),
        },
    }
}

/// Replays a schedule and prints its counts.
fn report_one_node(rt: &HostRuntime, lines: u32) -> io::Result<u8> {
    match one_node::run(rt.alloc(), lines) {
        Ok(counts) => {
            let one_node::Counts {
                input,
                output,
                status,
            } = counts;
            println!(rt; "events {lines}")?;
            println!(rt; "input {input}")?;
            println!(rt; "output {output}")?;
            Ok(status)
        }
        Err(_) => Ok(NO_MEMORY),
    }
}

/// Repeats a measurement, and answers what it counts in all rounds.
fn count(alloc: Global, measured: Measured, size: u32, rounds: u32) -> Result<usize, NoMemory> {
    match measured {
        Measured::OneNode => Ok(0),
        Measured::Locks => locks::repeat_one_after_another(alloc, size, rounds),
        Measured::Settle => locks::repeat_one_settle(alloc, size, rounds),
        Measured::Begin => transactions::begins(alloc, size, rounds),
        Measured::Add => transactions::adds(alloc, size, rounds),
        Measured::Wait => transactions::waits(alloc, size, rounds),
        Measured::SetKind => transactions::kinds(alloc, size, rounds),
        Measured::Read => transactions::reads(alloc, size, rounds),
        Measured::End => transactions::ends(alloc, size, rounds),
        Measured::Hit => buffers::hits(alloc, size, rounds),
        Measured::Replace => buffers::replacements(alloc, size, rounds),
        Measured::Prepare => redo::images(alloc, 8, size, rounds),
        Measured::PrepareLarge => redo::images(alloc, 1_024, size, rounds),
        Measured::PrepareRanges => redo::ranges(alloc, size, rounds),
    }
}
