//! The program: `run` over standard input, standard output, and a store in the folder `pcl-data` of
//! the working folder, which is made by the first call of the store.
#![tactic(auto)]

mod forms;
mod make;
mod std_sink;
mod std_source;
#[cfg(test)]
mod tests;
mod words;

use file_store::FileStore;
use std::process::ExitCode;
use std::{env, io};
use std_sink::StdSink;
use std_source::StdSource;
use words::run;

/// The folder of the store.
const FOLDER: &str = "pcl-data";

/// Want of memory for the words or for the store.
const NO_MEMORY: u8 = 9;

/// The words can't be read.
const NO_WORDS: u8 = 12;

fn main(rt: HostRuntime) -> ExitCode {
    let mut words = Vec::new(rt.alloc());
    match env::args(&rt) {
        Ok(args) => {
            for word in args.skip(1) {
                if words.push(word).is_err() {
                    return ExitCode::from(NO_MEMORY);
                }
            }
        }
        Err(fault) => {
            return ExitCode::from(if fault.kind() == io::ErrorKind::OutOfMemory {
                NO_MEMORY
            } else {
                NO_WORDS
            });
        }
    }
    let Ok(mut storage) = FileStore::open(rt.alloc(), &rt, FOLDER) else {
        return ExitCode::from(NO_MEMORY);
    };
    let mut input = StdSource::new(&rt);
    let mut output = StdSink::new(&rt);
    ExitCode::from(run(rt.alloc(), &words, &mut input, &mut output, &mut storage))
}
