ghost use Rattle.std.specs.Prelude.{◌≡◌, ◌≤◌, ◌<◌, ◌+◌, ◌++◌, ◌∷◌, [], length, map, IfOk};
ghost use Rattle.pcl_base.specs.declared.message.Body.TheVariants as body;
ghost use Rattle.step_laws.specs.Most.{items_in};
ghost use Rattle.cluster_rules.specs.Clusters.{note_of, sent_by};
ghost use Rattle.listing_laws.specs.Lists.{one_list};
ghost use Rattle.trace_entries.specs.Notes.{HasMemory};
ghost use Rattle.trace_entries.specs.Blanks.{IsReady};

use crate::blank::{Blank, filled};
use crate::kinds::{kind_of, version_of};
use node_parts::Outgoing;
use pcl_base::{Body, Items, NoMemory, NodeNo, Note, Report, ReturnRight, Sent};
use std::alloc::Global;
use std::marker::Model;

/// The notes of an entry, with the memory for what a step may send. It is taken before the step, so that
/// noting what was sent takes none.
#[derive(Drop)]
pub struct Notes {
    sent: Vec<Sent>,
    size: usize,
    blanks: Vec<Blank>,
}

impl Model for Notes {
    ghost use Rattle.std.specs.Prelude.{◌-◌, length, vec_len, vec_capacity};
    ghost use Rattle.trace_entries.specs.Notes.{NotesView};
    ghost use Rattle.trace_entries.specs.Blanks.{AreReady};

    ghost Value = { NotesView };

    ghost view = { λ n. record { sent = n.sent.items; room = vec_capacity n.sent - vec_len n.sent; lists = length n.blanks.items; size = n.size } };

    ghost invariant = { λ n. AreReady n.size n.blanks.items };
}

impl Notes {
    /// No notes yet, and memory for those of so many messages, of which so many have lists, with so many
    /// items each at most.
    pub fn open(alloc: Global, sends: usize, lists: u32, size: usize) -> Result<Notes, NoMemory>
        ensures sent { IfOk result (λ n. n.sent ≡ []) }
        ensures room { IfOk result (λ n. sends ≤ n.room) }
        ensures lists { IfOk result (λ n. n.lists ≡ lists) }
        ensures size { IfOk result (λ n. n.size ≡ size) }
    {
        let sent = Vec::with_capacity(alloc, sends)?;
        let mut blanks = Vec::with_capacity(alloc, lists as usize)?;
        for _ in 0..lists {
            blanks.push(Blank::open(alloc, size)?)?;
        }
        Ok(Notes { sent, size, blanks })
    }

    /// The notes of messages that a node sends, for which there is memory, in their order. It takes no
    /// memory, and lets go what isn't needed.
    pub fn of(self, from: NodeNo, sends: &[Outgoing]) -> Items<Sent>
        requires { HasMemory self sends.now }
        ensures { result ≡ self.sent ++ map (sent_by from) sends.now }
    {
        let mut notes = self;
        for outgoing in sends {
            notes.put(from, outgoing);
        }
        let Notes {
            sent,
            size: _size,
            blanks: _blanks,
        } = notes;
        let mut sent = sent;
        sent.shrink_to_fit();
        Items::of(sent)
    }

    /// A further note.
    fn put(&mut self, from: NodeNo, outgoing: &Outgoing)
        requires room { 0 < self.old.room }
        requires lists { one_list outgoing.now.message.body ≤ self.old.lists }
        requires items { items_in outgoing.now.message.body ≤ self.old.size }
        ensures sent { self.new.sent ≡ self.old.sent ++ sent_by from outgoing.now ∷ [] }
        ensures room { self.old.room ≤ self.new.room + 1 }
        ensures lists { self.old.lists ≡ self.new.lists + one_list outgoing.now.message.body }
        ensures size { self.new.size ≡ self.old.size }
    {
        let note = self.note(&outgoing.message.body);
        let sent = Sent {
            from,
            to: outgoing.to,
            epoch: outgoing.message.epoch,
            note,
        };
        match self.sent.push(sent) {
            Ok(()) => return,
            Err(_back) => unreachable!(),
        }
    }

    /// What an entry says of a message: all but the bytes of images.
    #[tactic(auto, unfolding(cluster_rules::specs::Clusters::note_of))]
    fn note(&mut self, body: &Body) -> Note
        requires lists { one_list body.now ≤ self.old.lists }
        requires items { items_in body.now ≤ self.old.size }
        ensures note { result ≡ note_of body.now }
        ensures sent { self.new.sent ≡ self.old.sent }
        ensures room { self.new.room ≡ self.old.room }
        ensures lists { self.old.lists ≡ self.new.lists + one_list body.now }
        ensures size { self.new.size ≡ self.old.size }
    {
        match body {
            Body::Request(request) => Note::Request {
                tx: request.tx,
                page: request.page,
                mode: request.mode,
                have: request.have,
            },
            Body::Grant(grant) => Note::Grant {
                tx: grant.tx,
                page: grant.page,
                mode: grant.mode,
                right: grant.right,
                version: grant.version,
                copy: kind_of(&grant.copy),
            },
            Body::Release(release) => Note::Release {
                tx: release.tx,
                page: release.page,
                change: version_of(&release.change),
            },
            Body::Revoke { page } => Note::Revoke { page: *page },
            Body::Return(back) => self.note_return(back),
            Body::Report(report) => self.note_report(report),
        }
    }

    /// The same of an answer to a revocation.
    #[tactic(auto, unfolding(cluster_rules::specs::Clusters::note_of))]
    fn note_return(&mut self, back: &ReturnRight) -> Note
        requires lists { 0 < self.old.lists }
        requires items { length back.now.readers ≤ self.old.size }
        ensures note { result ≡ note_of (body.Return back.now) }
        ensures sent { self.new.sent ≡ self.old.sent }
        ensures room { self.new.room ≡ self.old.room }
        ensures lists { self.old.lists ≡ self.new.lists + 1 }
        ensures size { self.new.size ≡ self.old.size }
    {
        let Blank {
            readers,
            waits: _waits,
            locks: _locks,
            rights: _rights,
        } = self.blank();
        Note::Return {
            page: back.page,
            readers: filled(readers, back.readers.as_slice()),
        }
    }

    /// The same of a report.
    #[tactic(auto, unfolding(cluster_rules::specs::Clusters::note_of))]
    fn note_report(&mut self, report: &Report) -> Note
        requires lists { 0 < self.old.lists }
        requires items { length report.now.waits + length report.now.locks + length report.now.rights ≤ self.old.size }
        ensures note { result ≡ note_of (body.Report report.now) }
        ensures sent { self.new.sent ≡ self.old.sent }
        ensures room { self.new.room ≡ self.old.room }
        ensures lists { self.old.lists ≡ self.new.lists + 1 }
        ensures size { self.new.size ≡ self.old.size }
    {
        let Blank {
            readers: _readers,
            waits,
            locks,
            rights,
        } = self.blank();
        Note::Report {
            partition: report.partition,
            waits: filled(waits, report.waits.as_slice()),
            locks: filled(locks, report.locks.as_slice()),
            rights: filled(rights, report.rights.as_slice()),
        }
    }

    /// The lists for one message.
    fn blank(&mut self) -> Blank
        requires { 0 < self.old.lists }
        ensures blank { IsReady self.old.size result }
        ensures sent { self.new.sent ≡ self.old.sent }
        ensures room { self.new.room ≡ self.old.room }
        ensures lists { self.old.lists ≡ self.new.lists + 1 }
        ensures size { self.new.size ≡ self.old.size }
    {
        match self.blanks.pop() {
            Some(blank) => blank,
            None => unreachable!(),
        }
    }
}
