ghost use Rattle.std.specs.Prelude.{◌≡◌, IfOk};
ghost use Rattle.text_rules.specs.ScheduleLine.{header_line};
ghost use Rattle.text_rules.specs.TraceText.{echo_text, end_text};

use crate::words::{put, put_spaced};
use pcl_base::{Config, NoMemory};
use std::alloc::Global;

/// Prints the first line of a trace's text, with its newline: `> ` and the header line of the
/// configuration.
///
/// It answers [`NoMemory`] where there is none for the text.
pub fn print_header(alloc: Global, config: &Config) -> Result<Vec<u8>, NoMemory>
    ensures { IfOk result (λ text. text.items ≡ echo_text (header_line (record { nodes = config.now.nodes; pages = config.now.pages; size = config.now.size; frames = config.now.frames }))) }
{
    let mut out = Vec::new(alloc);
    put(&mut out, b"> pcl 1")?;
    put_spaced(&mut out, config.nodes() as u64)?;
    put_spaced(&mut out, config.pages() as u64)?;
    put_spaced(&mut out, config.size() as u64)?;
    put_spaced(&mut out, config.frames() as u64)?;
    put(&mut out, b"\n")?;
    Ok(out)
}

/// Prints the last line of a trace's text, with its newline: the number of events and of commit
/// points.
///
/// It answers [`NoMemory`] where there is none for the text.
pub fn print_end(alloc: Global, events: u64, commits: u64) -> Result<Vec<u8>, NoMemory>
    ensures { IfOk result (λ text. text.items ≡ end_text events commits) }
{
    let mut out = Vec::new(alloc);
    put(&mut out, b"end")?;
    put_spaced(&mut out, events)?;
    put_spaced(&mut out, commits)?;
    put(&mut out, b"\n")?;
    Ok(out)
}
