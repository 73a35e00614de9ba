ghost use Rattle.std.specs.Prelude.{◌≡◌, ◌<◌, ◌≤◌, [], ◌∷◌, length, OnOk, IfOk, IsTrue};
ghost use Rattle.replay_rules.specs.Due.{at_end};
ghost use Rattle.replay_rules.specs.Due.Place.{Going, Stopped};
ghost use Rattle.replay_rules.specs.Outcome.{AppendsPart, is_judged};
ghost use Rattle.replay.specs.Outcome.{Outcome, OutcomeOrDifference};
ghost use Rattle.replay.specs.ReaderView.{first_reader};
ghost use Rattle.replay.specs.Held.{Held, HeldAll, Stored};
ghost use Rattle.replay.specs.Told.{IsStop};
ghost use Rattle.replay.specs.Wrote.{Closes, HasBlame, IsWriteFault, Took, Wrote, status_of};

use crate::ends::{Fault, write_all};
use crate::reader::Reader;
use crate::text::Text;
use pcl_base::{Sink, Source};
use std::alloc::Global;

/// The bytes that are asked of the source at once.
const PIECE: usize = 65_536;

/// So much text is written although the piece has further bytes.
const MUCH: usize = 65_536;

/// Runs the schedule that the source gives in a cluster of its own, writes its trace to the sink, or where
/// `totals` is true its totals alone, and answers the status.
///
/// The statuses are those of README.md: 0 at the end of the input; 3 at a line outside its grammar; 4
/// and 5 where the source or the sink failed; 7 at a byte of line 200,001; 9 for want of memory. No other
/// comes: no page that a step reads differs, in no run.
pub fn replay<I: Source, O: Sink>(alloc: Global, input: &mut I, output: &mut O, totals: bool) -> u8
    ensures { Outcome totals (I.left input.old) (I.left input.new) (O.written output.old) (O.written output.new) (I.faults input.old) (I.faults input.new) (O.faults output.old) (O.faults output.new) result }
{
    match run(alloc, input, output, totals) {
        Ok(status) => status,
        Err(Fault::Source) => 4,
        Err(Fault::Sink) => 5,
        Err(Fault::Memory) => 9,
    }
}

/// Runs the schedule from its first byte on.
fn run<I: Source, O: Sink>(
    alloc: Global,
    input: &mut I,
    output: &mut O,
    totals: bool,
) -> Result<u8, Fault>
    ensures { OutcomeOrDifference totals (I.left input.old) (I.left input.new) (O.written output.old) (O.written output.new) (I.faults input.old) (I.faults input.new) (O.faults output.old) (O.faults output.new) (status_of result) }
{
    let mut reader = Reader::new(alloc, totals);
    let mut text = Text::new(alloc);
    let mut held = Text::new(alloc);
    match vec![in alloc; 0u8; PIECE] {
        Ok(mut piece) => {
            let piece = piece.as_mut_slice();
            let result = read_all(&mut reader, &mut text, &mut held, piece, input, output);
            reader.close();
            result
        }
        Err(_) => {
            reader.close();
            Err(Fault::Memory)
        }
    }
}

/// Reads the input piece by piece.
fn read_all<I: Source, O: Sink>(
    reader: &mut Reader,
    text: &mut Text,
    held: &mut Text,
    piece: &mut [u8],
    input: &mut I,
    output: &mut O,
) -> Result<u8, Fault>
    requires first { reader.old ≡ first_reader reader.old.totals }
    requires empty { text.old ≡ [] }
    requires none { held.old ≡ [] }
    requires room { 0 < length piece.old }
    ensures { OutcomeOrDifference reader.old.totals (I.left input.old) (I.left input.new) (O.written output.old) (O.written output.new) (I.faults input.old) (I.faults input.new) (O.faults output.old) (O.faults output.new) (status_of result) }
{
    for _ in 0..u64::MAX {
        match input.read(piece) {
            Err(_) => return Err(Fault::Source),
            Ok(0) => return finish(reader, text, output),
            Ok(count) => match take(reader, &piece[..count], text, held, output) {
                Err(fault) => return Err(fault),
                Ok(Some(status)) => return Ok(status),
                Ok(None) => {}
            },
        }
    }
    // Nobody comes here: 200,000 lines are over long before so many pieces.
    Err(Fault::Memory)
}

/// Takes the bytes of a piece, and writes what they give. It gives a status where the run is over.
fn take<O: Sink>(
    reader: &mut Reader,
    piece: &[u8],
    text: &mut Text,
    held: &mut Text,
    output: &mut O,
) -> Result<Option<u8>, Fault>
    requires empty { text.old ≡ [] }
    requires none { held.old ≡ [] }
    ensures took { Took reader.old piece.now (O.written output.old) (O.written output.new) result reader.new }
    ensures blame { HasBlame (O.faults output.old) (O.faults output.new) result }
    ensures empty { OnOk result (text.new ≡ []) }
    ensures none { OnOk result (held.new ≡ []) }
    ensures stop { IfOk result IsStop }
{
    match take_all(reader, piece, text, held, output) {
        Err(fault) => Err(fault),
        Ok(status) => match flush(held, output) {
            Err(fault) => Err(fault),
            Ok(()) => Ok(status),
        },
    }
}

/// Takes the bytes of a piece. What they give is written where it is much, and held back where it isn't.
fn take_all<O: Sink>(
    reader: &mut Reader,
    piece: &[u8],
    text: &mut Text,
    held: &mut Text,
    output: &mut O,
) -> Result<Option<u8>, Fault>
    requires empty { text.old ≡ [] }
    requires none { held.old ≡ [] }
    ensures took { HeldAll reader.old piece.now (O.written output.old) (O.written output.new) held.new result reader.new }
    ensures blame { HasBlame (O.faults output.old) (O.faults output.new) result }
    ensures empty { OnOk result (text.new ≡ []) }
    ensures stop { IfOk result IsStop }
{
    for byte in piece {
        match take_byte(reader, *byte, text, held, output) {
            Err(fault) => return Err(fault),
            Ok(Some(status)) => return Ok(Some(status)),
            Ok(None) => {}
        }
    }
    Ok(None)
}

/// Takes a byte. Where that can't be done, what was held back is written first.
fn take_byte<O: Sink>(
    reader: &mut Reader,
    byte: u8,
    text: &mut Text,
    held: &mut Text,
    output: &mut O,
) -> Result<Option<u8>, Fault>
    requires { text.old ≡ [] }
    ensures took { Held reader.old (byte ∷ []) (O.written output.old) held.old (O.written output.new) held.new result reader.new }
    ensures blame { HasBlame (O.faults output.old) (O.faults output.new) result }
    ensures empty { OnOk result (text.new ≡ []) }
    ensures stop { IfOk result IsStop }
{
    match reader.feed(byte, text) {
        Err(_) => Err(give_up(held, output)),
        Ok(status) => match store(text, held, output) {
            Err(fault) => Err(fault),
            Ok(()) => Ok(status),
        },
    }
}

/// Puts the text behind what is held back, and clears it. Much is written at once.
fn store<O: Sink>(text: &mut Text, held: &mut Text, output: &mut O) -> Result<(), Fault>
    ensures stored { Stored (O.written output.old) held.old text.old (O.written output.new) held.new result }
    ensures blame { HasBlame (O.faults output.old) (O.faults output.new) result }
    ensures empty { OnOk result (text.new ≡ []) }
{
    match held.gather(text) {
        Err(_) => Err(give_up(held, output)),
        Ok(()) => {
            if held.as_slice().len() < MUCH {
                return Ok(());
            }
            flush(held, output)
        }
    }
}

/// Writes what is held back before want of memory ends the run.
fn give_up<O: Sink>(held: &mut Text, output: &mut O) -> Fault
    ensures part { AppendsPart (O.written output.old) (O.written output.new) held.old }
    ensures later { O.faults output.old ≤ O.faults output.new }
    ensures cause { IsWriteFault (O.faults output.old) (O.faults output.new) result }
{
    match flush(held, output) {
        Err(fault) => fault,
        Ok(()) => Fault::Memory,
    }
}

/// Writes the last line, and answers the status.
fn finish<O: Sink>(reader: &mut Reader, text: &mut Text, output: &mut O) -> Result<u8, Fault>
    requires { text.old ≡ [] }
    ensures closes { Closes reader.old (O.written output.old) (O.written output.new) result }
    ensures blame { HasBlame (O.faults output.old) (O.faults output.new) result }
    ensures place { IfOk result (λ s. (at_end reader.old.totals (Going reader.old.reading)).place ≡ Stopped s) }
    ensures judged { IfOk result (λ s. IsTrue (is_judged s)) }
{
    match reader.end(text) {
        Err(_) => Err(Fault::Memory),
        Ok(status) => match flush(text, output) {
            Err(fault) => Err(fault),
            Ok(()) => Ok(status),
        },
    }
}

/// Writes the text, if there is any, and clears it.
fn flush<O: Sink>(text: &mut Text, output: &mut O) -> Result<(), Fault>
    ensures wrote { Wrote (O.written output.old) (O.written output.new) text.old result }
    ensures blame { HasBlame (O.faults output.old) (O.faults output.new) result }
    ensures empty { OnOk result (text.new ≡ []) }
{
    match write_all(output, text.as_slice()) {
        Err(_) => Err(Fault::Sink),
        Ok(()) => {
            text.clear();
            Ok(())
        }
    }
}
