ghost use Rattle.std.specs.Prelude.{◌≡◌, ◌+◌, ◌++◌, [], codes, true, OnOk, OnErr};
ghost use Rattle.text_rules.specs.ScheduleLine.{HasLine, spaced};
ghost use Rattle.text_rules.specs.TraceText.{echo_text, ended, entry_text};
ghost use Rattle.text_rules.specs.BadLine.{bad_header_text};
ghost use Rattle.replay_rules.specs.Due.{in_trace};
ghost use Rattle.replay.specs.Told.{closing_of};

use crate::counter::Counter;
use itoa::Buffer;
use pcl_base::{ConfigFault, Entry, NoMemory};
use std::alloc::Global;
use std::marker::Model;
use trace_text::{print_end, print_entry};

/// The text of the lines that were read since it was cleared.
#[derive(Debug, Drop)]
pub(crate) struct Text {
    alloc: Global,
    bytes: Vec<u8>,
}

impl Model for Text {
    ghost use Rattle.std.specs.Prelude.{List, ℕ};

    ghost Value = { List ℕ };

    ghost view = { λ t. t.bytes.items };
}

impl Text {
    /// The empty text. It takes no memory.
    pub(crate) fn new(alloc: Global) -> Text
        ensures { result ≡ [] }
    {
        Text {
            alloc,
            bytes: Vec::new(alloc),
        }
    }

    /// The bytes of the text.
    pub(crate) fn as_slice(&self) -> &[u8]
        ensures { result.now ≡ self.now }
    {
        self.bytes.as_slice()
    }

    /// Takes the text away and keeps its memory.
    pub(crate) fn clear(&mut self)
        ensures { self.new ≡ [] }
    {
        self.bytes.clear();
    }

    /// Puts another text behind this one, and clears that one, which keeps its memory. Where there is no
    /// memory, both stay.
    pub(crate) fn gather(&mut self, other: &mut Text) -> Result<(), NoMemory>
        ensures gathered { OnOk result (self.new ≡ self.old ++ other.old) }
        ensures cleared { OnOk result (other.new ≡ []) }
        ensures kept { OnErr result (self.new ≡ self.old) }
    {
        self.bytes.extend_from_slice(other.as_slice())?;
        other.clear();
        Ok(())
    }

    /// Appends bytes.
    fn push(&mut self, bytes: &[u8]) -> Result<(), NoMemory>
        ensures { OnOk result (self.new ≡ self.old ++ bytes.now) }
    {
        Ok(self.bytes.extend_from_slice(bytes)?)
    }

    /// Appends a number after a space.
    fn push_number(&mut self, number: u64) -> Result<(), NoMemory>
        ensures { OnOk result (self.new ≡ self.old ++ spaced number) }
    {
        self.push(b" ")?;
        self.push(Buffer::new().format(number).as_bytes())
    }

    /// Appends a line that was read.
    fn echo(&mut self, line: &[u8]) -> Result<(), NoMemory>
        ensures { OnOk result (self.new ≡ self.old ++ echo_text line.now) }
    {
        self.push(b"> ")?;
        self.push(line)?;
        self.push(b"\n")
    }

    /// Appends the first line that was read, or nothing where the totals alone are told.
    pub(crate) fn header(&mut self, totals: bool, line: &[u8]) -> Result<(), NoMemory>
        ensures { OnOk result (self.new ≡ self.old ++ in_trace totals (echo_text line.now)) }
    {
        if totals {
            return Ok(());
        }
        self.echo(line)
    }

    /// Appends the text of an entry, or nothing where the totals alone are told.
    pub(crate) fn entry(&mut self, totals: bool, entry: &Entry) -> Result<(), NoMemory>
        requires { HasLine entry.now.event }
        ensures { OnOk result (self.new ≡ self.old ++ in_trace totals (entry_text entry.now)) }
    {
        if totals {
            return Ok(());
        }
        let text = print_entry(self.alloc, entry)?;
        self.push(text.as_slice())
    }

    /// Appends the last line of a run that a bad line ends: the number of that line, which is the one
    /// after those that were read, the column and why.
    pub(crate) fn bad(&mut self, lines: u32, column: usize, why: &[u8]) -> Result<(), NoMemory>
        ensures { OnOk result (self.new ≡ self.old ++ ended (codes "bad" ++ spaced (lines + 1) ++ spaced column ++ codes " " ++ why.now)) }
    {
        self.push(b"bad")?;
        self.push_number(lines as u64 + 1)?;
        self.push_number(column as u64)?;
        self.push(b" ")?;
        self.push(why)?;
        self.push(b"\n")
    }

    /// Appends the last line of a run whose header's numbers are no configuration.
    pub(crate) fn bad_header(&mut self, fault: ConfigFault) -> Result<(), NoMemory>
        ensures { OnOk result (self.new ≡ self.old ++ bad_header_text fault) }
    {
        match fault {
            ConfigFault::BadNodes => self.push(b"bad 1 0 BadNodes\n"),
            ConfigFault::BadPages => self.push(b"bad 1 0 BadPages\n"),
            ConfigFault::BadSize => self.push(b"bad 1 0 BadSize\n"),
            ConfigFault::BadFrames => self.push(b"bad 1 0 BadFrames\n"),
        }
    }

    /// Appends the last line: a word and the number of the line after those that were read.
    pub(crate) fn last(&mut self, word: &[u8], lines: u32) -> Result<(), NoMemory>
        ensures { OnOk result (self.new ≡ self.old ++ ended (word.now ++ spaced (lines + 1))) }
    {
        self.push(word)?;
        self.push_number(lines as u64 + 1)?;
        self.push(b"\n")
    }

    /// Appends the last line of a whole run, or its totals.
    pub(crate) fn end(&mut self, totals: bool, counter: &Counter) -> Result<(), NoMemory>
        ensures { OnOk result (self.new ≡ self.old ++ closing_of totals counter.now) }
    {
        if totals {
            return self.totals(counter);
        }
        let text = print_end(self.alloc, counter.events(), counter.commits())?;
        self.push(text.as_slice())
    }

    /// Appends the totals.
    fn totals(&mut self, counter: &Counter) -> Result<(), NoMemory>
        ensures { OnOk result (self.new ≡ self.old ++ closing_of true counter.now) }
    {
        let text = counter.print(self.alloc)?;
        self.push(text.as_slice())
    }
}
