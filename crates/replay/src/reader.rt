ghost use Rattle.std.specs.Prelude.{◌≡◌, ◌+◌, ◌++◌, ◌<◌, OnOk, IfOk, IsSome, IsTrue};

use crate::added::added;
use crate::counter::Counter;
use crate::cuts::{cut_event, cut_header};
use crate::text::Text;
use cluster::Cluster;
use cluster_parts::ClusterFault;
use pcl_base::{Config, Event, Header, NoMemory};
use schedule_text::{LineFault, LineReason, read_header, read_line};
use std::alloc::Global;
use std::marker::Model;
use std::mem;

/// The most lines of a schedule.
const MOST_LINES: u32 = 200_000;

/// The most bytes that are needed of a line to judge it.
const MOST_BYTES: usize = 8_235;

/// Reads a schedule byte by byte and runs its lines.
///
/// It can't be dropped: `close` ends it.
pub(crate) struct Reader {
    alloc: Global,
    /// Whether the totals are told in place of the trace.
    totals: bool,
    /// The whole lines so far.
    lines: u32,
    /// The bytes of the next line so far.
    part: Vec<u8>,
    /// The cluster, once there is a header.
    cluster: Option<Cluster>,
    counter: Counter,
}

impl Model for Reader {
    ghost use Rattle.std.specs.Prelude.{◌≤◌};
    ghost use Rattle.replay.specs.ReaderView.{ReaderView, reader_of};

    ghost Value = { ReaderView };

    ghost view = { λ r. reader_of r.totals r.lines r.part.items r.cluster r.counter };

    ghost invariant = { λ r. r.lines ≤ 200000 };
}

impl Reader {
    ghost use Rattle.std.specs.Prelude.{None, Some, []};
    ghost use Rattle.text_rules.specs.BadLine.{bad_text};
    ghost use Rattle.text_rules.specs.ScheduleLine.{HasLine, header_line, spaced};
    ghost use Rattle.text_rules.specs.ReadLine.{header_of};
    ghost use Rattle.text_rules.specs.ReadEvent.{event_of};
    ghost use Rattle.text_rules.specs.TraceText.{ended};
    ghost use Rattle.schedule_text.specs.LineAnswer.{why_of};
    ghost use Rattle.replay_rules.specs.Due.{fed as fed_spec, at_end, with_header, judged};
    ghost use Rattle.replay_rules.specs.Due.Place.{Going, Stopped};
    ghost use Rattle.replay_rules.specs.Outcome.{is_judged};
    ghost use Rattle.replay.specs.ReaderView.{HasCounts, first_reader, place_of};
    ghost use Rattle.replay.specs.Told.{Feeds, IsRuleStop, IsStop, Tells, TellsLast, TellsSome, line_told};

    /// A reader before the first byte. It takes no memory.
    pub(crate) fn new(alloc: Global, totals: bool) -> Reader
        ensures { result ≡ first_reader totals }
    {
        Reader {
            alloc,
            totals,
            lines: 0,
            part: Vec::new(alloc),
            cluster: None,
            counter: Counter::new(),
        }
    }

    /// Lets its cluster go. It takes no memory.
    pub(crate) fn close(self) {
        let Reader {
            alloc: _alloc,
            totals: _totals,
            lines: _lines,
            part: _part,
            cluster,
            counter: _counter,
        } = self;
        match cluster {
            Some(cluster) => cluster.close(),
            None => {}
        }
    }

    /// Appends the last line of a run that is over, and gives its status.
    fn stop(&mut self, word: &[u8], status: u8, text: &mut Text) -> Result<Option<u8>, NoMemory>
        ensures text { OnOk result (text.new ≡ text.old ++ ended (word.now ++ spaced (self.old.reading.lines + 1))) }
        ensures status { IfOk result (λ s. s ≡ Some status) }
        ensures same { self.new ≡ self.old }
    {
        text.last(word, self.lines)?;
        Ok(Some(status))
    }

    /// Appends the last line of a run that a bad line ends, and gives its status.
    fn refuse(
        &mut self,
        column: usize,
        reason: LineReason,
        text: &mut Text,
    ) -> Result<Option<u8>, NoMemory>
        ensures text { OnOk result (text.new ≡ text.old ++ bad_text (self.old.reading.lines + 1) column (why_of reason)) }
        ensures status { IfOk result (λ s. s ≡ Some 3) }
        ensures same { self.new ≡ self.old }
    {
        match reason {
            LineReason::Byte => text.bad(self.lines, column, b"byte")?,
            LineReason::Short => text.bad(self.lines, column, b"short")?,
        }
        Ok(Some(3))
    }

    /// The first line: its numbers make a configuration, over which a cluster opens.
    fn start(&mut self, header: Header, text: &mut Text) -> Result<Option<u8>, NoMemory>
        requires room { self.old.reading.lines < 200_000 }
        requires none { self.old.reading.cluster ≡ None }
        requires line { header_line header ≡ self.old.reading.part }
        ensures text { OnOk result (text.new ≡ text.old ++ (with_header self.old.totals self.old.reading (Some header)).text) }
        ensures place { IfOk result (λ s. (with_header self.old.totals self.old.reading (Some header)).place ≡ place_of s self.new.reading) }
        ensures stop { IfOk result IsRuleStop }
        ensures totals { OnOk result (self.new.totals ≡ self.old.totals) }
        ensures counts { OnOk result (HasCounts self.old → HasCounts self.new) }
    {
        let config = match Config::new(header.nodes, header.pages, header.size, header.frames) {
            Ok(config) => config,
            Err(fault) => {
                text.bad_header(fault)?;
                return Ok(Some(3));
            }
        };
        text.header(self.totals, self.part.as_slice())?;
        let cluster = Cluster::open(self.alloc, &config)?;
        match mem::replace(&mut self.cluster, Some(cluster)) {
            None => {
                self.lines += 1;
                self.part.clear();
                Ok(None)
            }
            Some(_) => unreachable!(),
        }
    }

    /// A further line: an event, by which the cluster makes a step.
    fn run(&mut self, event: &Event, text: &mut Text) -> Result<Option<u8>, NoMemory>
        requires room { self.old.reading.lines < 200_000 }
        requires cluster { IsSome self.old.reading.cluster }
        requires has { HasLine event.now }
        requires line { event_of self.old.reading.part ≡ Some event.now }
        ensures told { IfOk result (λ s. Tells (line_told self.old self.old.reading.cluster (Some event.now)) self.old text.old text.new s self.new) }
        ensures stop { IfOk result IsStop }
    {
        let Some(cluster) = &mut self.cluster else {
            unreachable!();
        };
        match cluster.step(event) {
            Ok(()) => self.tell(event, text),
            Err(ClusterFault::NoMemory) => Err(NoMemory),
            // No run comes here: `replay` shows it of the whole schedule.
            Err(
                ClusterFault::Differs {
                    page: _page,
                    expected: _expected,
                    found: _found,
                },
            ) => self.stop(b"later", 8, text),
        }
    }

    /// Tells the entry that a step has added to the trace.
    fn tell(&mut self, event: &Event, text: &mut Text) -> Result<Option<u8>, NoMemory>
        requires room { self.old.reading.lines < 200_000 }
        requires cluster { IsSome self.old.reading.cluster }
        requires has { HasLine event.now }
        ensures last { IfOk result (λ s. TellsLast event.now self.old text.old text.new s self.new) }
        ensures some { IfOk result (TellsSome text.old text.new) }
        ensures stop { IfOk result IsStop }
    {
        let Some(cluster) = &self.cluster else {
            unreachable!();
        };
        match added(cluster.trace().entries(), event) {
            Some(entry) => {
                text.entry(self.totals, entry)?;
                self.counter.add(entry)?;
                self.lines += 1;
                self.part.clear();
                Ok(None)
            }
            None => self.stop(b"later", 8, text),
        }
    }

    /// The first line, whole or of so many bytes that it is in no grammar.
    fn judge_header(&mut self, text: &mut Text) -> Result<Option<u8>, NoMemory>
        requires room { self.old.reading.lines < 200_000 }
        requires none { self.old.reading.cluster ≡ None }
        ensures text { OnOk result (text.new ≡ text.old ++ (with_header self.old.totals self.old.reading (header_of self.old.reading.part)).text) }
        ensures place { IfOk result (λ s. (with_header self.old.totals self.old.reading (header_of self.old.reading.part)).place ≡ place_of s self.new.reading) }
        ensures stop { IfOk result IsRuleStop }
        ensures totals { OnOk result (self.new.totals ≡ self.old.totals) }
        ensures counts { OnOk result (HasCounts self.old → HasCounts self.new) }
    {
        match read_header(self.part.as_slice()) {
            Ok(header) => self.start(header, text),
            Err(LineFault::BadLine { column, reason }) => self.refuse(column, reason, text),
            Err(LineFault::NoMemory) => Err(NoMemory),
        }
    }

    /// A further line.
    fn judge_event(&mut self, text: &mut Text) -> Result<Option<u8>, NoMemory>
        requires room { self.old.reading.lines < 200_000 }
        requires cluster { IsSome self.old.reading.cluster }
        ensures told { IfOk result (λ s. Tells (line_told self.old self.old.reading.cluster (event_of self.old.reading.part)) self.old text.old text.new s self.new) }
        ensures stop { IfOk result IsStop }
    {
        match read_line(self.alloc, self.part.as_slice()) {
            Ok(event) => self.run(&event, text),
            Err(LineFault::BadLine { column, reason }) => self.refuse(column, reason, text),
            Err(LineFault::NoMemory) => Err(NoMemory),
        }
    }

    /// A whole line, or one of so many bytes that it is in no grammar.
    #[tactic(auto, unfolding(replay_rules::specs::Due::judged))]
    fn judge(&mut self, text: &mut Text) -> Result<Option<u8>, NoMemory>
        requires room { self.old.reading.lines < 200_000 }
        ensures told { IfOk result (λ s. Tells (judged self.old.totals self.old.reading) self.old text.old text.new s self.new) }
        ensures stop { IfOk result IsStop }
    {
        if self.cluster.is_none() {
            return self.judge_header(text);
        }
        self.judge_event(text)
    }

    /// One byte more. It gives a status where the run is over.
    #[tactic(auto, unfolding(replay_rules::specs::Due::fed))]
    pub(crate) fn feed(&mut self, byte: u8, text: &mut Text) -> Result<Option<u8>, NoMemory>
        ensures told { IfOk result (λ s. Feeds (fed_spec self.old.totals self.old.reading byte) self.old byte text.old text.new s self.new) }
        ensures stop { IfOk result IsStop }
    {
        if self.lines == MOST_LINES {
            return self.stop(b"long", 7, text);
        }
        if byte == b'\n' {
            return self.judge(text);
        }
        self.part.push(byte)?;
        if self.part.len() == MOST_BYTES {
            return self.judge(text);
        }
        Ok(None)
    }

    /// The end of the input: behind a whole line, or within one. It gives the status of the run.
    #[tactic(auto, unfolding(replay_rules::specs::Due::at_end))]
    pub(crate) fn end(&mut self, text: &mut Text) -> Result<u8, NoMemory>
        ensures text { OnOk result (HasCounts self.old → text.new ≡ text.old ++ (at_end self.old.totals (Going self.old.reading)).text) }
        ensures place { IfOk result (λ s. (at_end self.old.totals (Going self.old.reading)).place ≡ Stopped s) }
        ensures judged { IfOk result (λ s. IsTrue (is_judged s)) }
    {
        if self.cluster.is_none() {
            cut_header(self.part.as_slice(), self.lines, text)?;
            return Ok(3);
        }
        if self.part.is_empty() {
            text.end(self.totals, &self.counter)?;
            return Ok(0);
        }
        cut_event(self.alloc, self.part.as_slice(), self.lines, text)?;
        Ok(3)
    }
}
