//! The run of a schedule, with a look behind each line.

use crate::judging::{What, judge};
use cluster::Cluster;
use pcl_base::Config;
use schedule_text::{read_header, read_line};
use std::alloc::Global;

/// What was wrong, and behind which line; the header is line 1.
pub(crate) struct Fault {
    pub line: usize,
    pub what: What,
}

/// Runs a schedule, and answers how many entries its trace has.
pub(crate) fn run(alloc: Global, input: &[u8]) -> Result<usize, Fault> {
    let Some(end) = input.iter().position(|byte| *byte == b'\n') else {
        return Err(Fault {
            line: 1,
            what: What::Line,
        });
    };
    let (Some(first), Some(rest)) = (input.get(..end), input.get(end..)) else {
        return Err(Fault {
            line: 1,
            what: What::Line,
        });
    };
    match open(alloc, first) {
        Err(what) => Err(Fault { line: 1, what }),
        Ok(cluster) => {
            let mut cluster = cluster;
            let done = run_lines(alloc, &mut cluster, rest);
            let entries = cluster.trace().entries().len();
            cluster.close();
            match done {
                Ok(()) => Ok(entries),
                Err(what) => Err(Fault {
                    line: entries.saturating_add(1),
                    what,
                }),
            }
        }
    }
}

/// The cluster of a header.
fn open(alloc: Global, line: &[u8]) -> Result<Cluster, What> {
    let Ok(header) = read_header(line) else {
        return Err(What::Line);
    };
    let Ok(config) = Config::new(header.nodes, header.pages, header.size, header.frames) else {
        return Err(What::Line);
    };
    match Cluster::open(alloc, &config) {
        Ok(cluster) => Ok(cluster),
        Err(_) => Err(What::Memory),
    }
}

/// Runs the lines, each of which stands behind a newline.
fn run_lines(alloc: Global, cluster: &mut Cluster, input: &[u8]) -> Result<(), What> {
    let mut line = Vec::new(alloc);
    for byte in input.iter().skip(1) {
        if *byte == b'\n' {
            run_line(alloc, cluster, line.as_slice())?;
            line.clear();
        } else if line.push(*byte).is_err() {
            return Err(What::Memory);
        }
    }
    if line.is_empty() {
        return Ok(());
    }
    Err(What::Line)
}

/// Runs one line, and looks at what it left.
#[tactic(auto, using(crate::proofs::Counted::line_counted))]
fn run_line(alloc: Global, cluster: &mut Cluster, line: &[u8]) -> Result<(), What> {
    let Ok(event) = read_line(alloc, line) else {
        return Err(What::Line);
    };
    match cluster.step(&event) {
        Ok(()) => judge(alloc, cluster),
        Err(_) => Err(What::Step),
    }
}
