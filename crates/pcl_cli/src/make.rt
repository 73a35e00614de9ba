ghost use Rattle.std.specs.Prelude.{◌≡◌, ◌<◌, ◌++◌, [], true, false, length, OnOk, IfOk};
ghost use Rattle.pcl_base.specs.declared.event.Header.{Header};
ghost use Rattle.text_rules.specs.ScheduleLine.{HasLine, header_line, line_of, spaced};
ghost use Rattle.text_rules.specs.TraceText.{ended};
ghost use Rattle.text_rules.specs.Generator.{made_text};
ghost use Rattle.pcl_cli.specs.MakeText.{lines_of, Passed, IsMade};

use crate::forms::Job;
use itoa::Buffer;
use pcl_base::{Config, Event, Failed, NoMemory, Sink};
use replay::write_all;
use schedule_gen::Maker;
use schedule_text::print_event;
use std::alloc::Global;

/// How many bytes are gathered before they are written.
const PIECE: usize = 65_536;

/// Why a schedule isn't written whole.
#[derive(Clone, Copy, Debug, PartialEq, Eq)]
pub(crate) enum Stop {
    /// The sink failed.
    Sink,
    /// Want of memory.
    Memory,
}

impl From<NoMemory> for Stop {
    ghost use Rattle.std.specs.Prelude.{◌≡◌};
    ghost use Rattle.pcl_cli.specs.declared.make.Stop.TheVariants.{Memory as no_memory};

    ghost from_gives = { λ _ s. s ≡ no_memory };

    fn from(_fault: NoMemory) -> Stop {
        Stop::Memory
    }
}

impl From<Failed> for Stop {
    ghost use Rattle.std.specs.Prelude.{◌≡◌};
    ghost use Rattle.pcl_cli.specs.declared.make.Stop.TheVariants.{Sink as at_sink};

    ghost from_gives = { λ _ s. s ≡ at_sink };

    fn from(_fault: Failed) -> Stop {
        Stop::Sink
    }
}

/// Writes a generated schedule: its header and exactly as many lines as are asked for.
///
/// The status is 0 where all was written, 5 where the sink failed, and 9 for want of memory.
pub(crate) fn make<O: Sink>(alloc: Global, job: &Job, output: &mut O) -> u8
    ensures { IsMade (O.written output.old) (O.written output.new) (O.faults output.old) (O.faults output.new) result (made_text job.now.config job.now.seed job.now.lines) }
{
    match write_schedule(alloc, job, output) {
        Ok(()) => 0,
        Err(Stop::Sink) => 5,
        Err(Stop::Memory) => 9,
    }
}

/// Writes the schedule whole, or a beginning of it.
fn write_schedule<O: Sink>(alloc: Global, job: &Job, output: &mut O) -> Result<(), Stop>
    ensures { Passed (O.written output.old) (O.written output.new) (O.faults output.old) (O.faults output.new) (made_text job.now.config job.now.seed job.now.lines) [] result }
{
    match header(alloc, &job.config) {
        Err(_) => Err(Stop::Memory),
        Ok(mut text) => match Maker::open(alloc, &job.config, job.seed, job.lines) {
            Err(_) => Err(Stop::Memory),
            Ok(mut maker) => write_events(alloc, &mut maker, &mut text, output),
        },
    }
}

/// Writes a text and the lines of the events that are still to come.
fn write_events<O: Sink>(
    alloc: Global,
    maker: &mut Maker,
    text: &mut Vec<u8>,
    output: &mut O,
) -> Result<(), Stop>
    ensures { Passed (O.written output.old) (O.written output.new) (O.faults output.old) (O.faults output.new) (text.old.items ++ lines_of maker.old) [] result }
{
    while put_next(alloc, maker, text)? {
        if let Err(stop) = pass_on(text, output) {
            return Err(stop);
        }
    }
    flush(text, output)
}

/// Puts the line of the next event last. It answers false where there is none.
fn put_next(alloc: Global, maker: &mut Maker, text: &mut Vec<u8>) -> Result<bool, NoMemory>
    ensures lines { OnOk result (text.old.items ++ lines_of maker.old ≡ text.new.items ++ lines_of maker.new) }
    ensures last { IfOk result (λ more. more ≡ false → maker.new ≡ []) }
    ensures fewer { IfOk result (λ more. more ≡ true → length maker.new < length maker.old) }
{
    match maker.next()? {
        None => Ok(false),
        Some(event) => {
            put_line(alloc, text, &event)?;
            Ok(true)
        }
    }
}

/// The header's line.
fn header(alloc: Global, config: &Config) -> Result<Vec<u8>, NoMemory>
    ensures { IfOk result (λ v. v.items ≡ ended (header_line (record { nodes = config.now.nodes; pages = config.now.pages; size = config.now.size; frames = config.now.frames }))) }
{
    let mut line = Vec::with_capacity(alloc, 32)?;
    line.extend_from_slice(b"pcl 1")?;
    put_number(&mut line, config.nodes())?;
    put_number(&mut line, config.pages())?;
    put_number(&mut line, config.size())?;
    put_number(&mut line, config.frames())?;
    line.push(b'\n')?;
    Ok(line)
}

/// Puts a number last, after a space.
fn put_number(line: &mut Vec<u8>, number: u32) -> Result<(), NoMemory>
    ensures { OnOk result (line.new.items ≡ line.old.items ++ spaced number) }
{
    line.push(b' ')?;
    Ok(line.extend_from_slice(Buffer::new().format(number).as_bytes())?)
}

/// Puts the line of an event last.
fn put_line(alloc: Global, text: &mut Vec<u8>, event: &Event) -> Result<(), NoMemory>
    requires { HasLine event.now }
    ensures { OnOk result (text.new.items ≡ text.old.items ++ ended (line_of event.now)) }
{
    let line = print_event(alloc, event)?;
    text.extend_from_slice(line.as_slice())?;
    Ok(text.push(b'\n')?)
}

/// Writes the text once there is enough of it.
fn pass_on<O: Sink>(text: &mut Vec<u8>, output: &mut O) -> Result<(), Stop>
    ensures { Passed (O.written output.old) (O.written output.new) (O.faults output.old) (O.faults output.new) text.old.items text.new.items result }
{
    if text.len() < PIECE {
        return Ok(());
    }
    flush(text, output)
}

/// Writes the text and clears it.
fn flush<O: Sink>(text: &mut Vec<u8>, output: &mut O) -> Result<(), Stop>
    ensures passed { Passed (O.written output.old) (O.written output.new) (O.faults output.old) (O.faults output.new) text.old.items [] result }
    ensures empty { OnOk result (text.new.items ≡ []) }
{
    write_all(output, text.as_slice())?;
    text.clear();
    Ok(())
}
