ghost use Rattle.std.specs.Prelude.{◌≡◌, ◌++◌, ◌∷◌, [], List};
ghost use Rattle.pcl_base.specs.declared.trace.Entry.{Entry as entry};
ghost use Rattle.text_rules.specs.Totals.{totals_of};
ghost use Rattle.msg_account.specs.Counting.{counted, plus, of_replies, of_sends, of_step, IsCountable};

use pcl_base::{CopyKind, Entry, Halt, Note, Reply, Sent};

/// The counts of a summary (docs/formats.md, totals): one for each of its lines, named by that
/// line's word.
#[derive(Clone, Copy, Debug, Default, PartialEq, Eq)]
pub struct Tally {
    /// Entries.
    pub events: u64,
    /// Transactions that were opened.
    pub begun: u64,
    /// Reads that were granted.
    pub values: u64,
    /// Writes that were granted.
    pub done: u64,
    /// Accesses that had to wait.
    pub waits: u64,
    /// Commit points: commits that were answered, and those whose record a halt kept whole.
    pub committed: u64,
    /// Transactions that were given up.
    pub aborted: u64,
    /// Deliveries whose message was held.
    pub held: u64,
    /// Deliveries whose message was dropped.
    pub dropped: u64,
    /// Events that were refused.
    pub refused: u64,
    /// Steps that a failed device call ended.
    pub halted: u64,
    /// Requests that were sent.
    pub requests: u64,
    /// Grants that were sent.
    pub grants: u64,
    /// Releases that were sent.
    pub releases: u64,
    /// Revocations that were sent.
    pub revokes: u64,
    /// Answers to revocations that were sent.
    pub returns: u64,
    /// Reports that were sent.
    pub reports: u64,
    /// Grants and releases that were sent with the bytes of a page.
    pub images: u64,
}

impl Tally {
    /// The counts of a trace without entries: 0 in each.
    pub fn new() -> Tally
        ensures { counted result ≡ totals_of [] }
    {
        Tally {
            events: 0,
            begun: 0,
            values: 0,
            done: 0,
            waits: 0,
            committed: 0,
            aborted: 0,
            held: 0,
            dropped: 0,
            refused: 0,
            halted: 0,
            requests: 0,
            grants: 0,
            releases: 0,
            revokes: 0,
            returns: 0,
            reports: 0,
            images: 0,
        }
    }

    /// Adds what an entry counts. It needs that no count passes the last `u64` by it.
    ///
    /// Adding the entries of a trace one by one gives the totals of the trace.
    pub fn add(&mut self, e: &Entry)
        requires { IsCountable (plus (counted self.old) (totals_of (e.now ∷ []))) }
        ensures added { counted self.new ≡ plus (counted self.old) (totals_of (e.now ∷ [])) }
        ensures trace { (es : List entry) → counted self.old ≡ totals_of es → counted self.new ≡ totals_of (es ++ e.now ∷ []) }
    {
        self.add_parts(e);
    }

    /// Adds the parts of an entry one after the other.
    fn add_parts(&mut self, e: &Entry)
        requires { IsCountable (plus (counted self.old) (totals_of (e.now ∷ []))) }
        ensures { counted self.new ≡ plus (counted self.old) (totals_of (e.now ∷ [])) }
    {
        self.add_replies(e.replies.as_slice());
        self.add_sends(e.sent.as_slice());
        self.add_step(e);
    }

    /// Adds what replies count.
    fn add_replies(&mut self, replies: &[Reply])
        requires { IsCountable (plus (counted self.old) (of_replies replies.now)) }
        ensures { counted self.new ≡ plus (counted self.old) (of_replies replies.now) }
    {
        for reply in replies {
            self.add_reply(reply);
        }
    }

    /// Adds what messages count.
    fn add_sends(&mut self, sends: &[Sent])
        requires { IsCountable (plus (counted self.old) (of_sends sends.now)) }
        ensures { counted self.new ≡ plus (counted self.old) (of_sends sends.now) }
    {
        for sent in sends {
            self.add_sent(sent);
        }
    }

    /// Adds one reply.
    fn add_reply(&mut self, reply: &Reply)
        requires { IsCountable (plus (counted self.old) (of_replies (reply.now ∷ []))) }
        ensures { counted self.new ≡ plus (counted self.old) (of_replies (reply.now ∷ [])) }
    {
        match reply {
            Reply::Begun { .. } => self.begun += 1,
            Reply::Value { .. } => self.values += 1,
            Reply::Done { .. } => self.done += 1,
            Reply::Waits { .. } => self.waits += 1,
            Reply::Committed { .. } => self.committed += 1,
            Reply::Aborted { .. } => self.aborted += 1,
            Reply::Held => self.held += 1,
            Reply::Dropped => self.dropped += 1,
            Reply::Refused { .. } => self.refused += 1,
            _ => {}
        }
    }

    /// Adds one message: its kind, and the image that it brings.
    fn add_sent(&mut self, sent: &Sent)
        requires { IsCountable (plus (counted self.old) (of_sends (sent.now ∷ []))) }
        ensures { counted self.new ≡ plus (counted self.old) (of_sends (sent.now ∷ [])) }
    {
        match &sent.note {
            Note::Request { .. } => self.requests += 1,
            Note::Grant { copy, .. } => {
                self.grants += 1;
                if let CopyKind::Image = copy {
                    self.images += 1;
                }
            }
            Note::Release { change, .. } => {
                self.releases += 1;
                if change.is_some() {
                    self.images += 1;
                }
            }
            Note::Revoke { .. } => self.revokes += 1,
            Note::Return { .. } => self.returns += 1,
            Note::Report { .. } => self.reports += 1,
        }
    }

    /// Adds what an entry counts besides its replies and messages: itself, its halt, and the commit
    /// point that the halt kept.
    fn add_step(&mut self, e: &Entry)
        requires { IsCountable (plus (counted self.old) (of_step e.now)) }
        ensures { counted self.new ≡ plus (counted self.old) (of_step e.now) }
    {
        self.events += 1;
        match e.halted {
            Some(Halt { kept: Some(_), .. }) => {
                self.halted += 1;
                self.committed += 1;
            }
            Some(Halt { kept: None, .. }) => self.halted += 1,
            None => {}
        }
    }
}
