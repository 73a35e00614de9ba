ghost use Rattle.std.specs.Prelude.{◌≡◌, ◌+◌, ◌≤◌, ◌<◌, [], true, Some, None, length, is_some, vec_capacity, IfOk, OnOk, OnErr, IsOk};
ghost use Rattle.node_rules.specs.BufferRule.{copy_at, has_private, find, private_bytes};
ghost use Rattle.node_rules.specs.NodeState.{cover, runs_at, put_runs};
ghost use Rattle.node_rules.specs.Work.{with_pool};
ghost use Rattle.node_rules.specs.AccessRule.{bytes_read, filled, perform, version_or};
ghost use Rattle.buffer_pool.specs.Buffer.{IsBuffer};
ghost use Rattle.home.specs.Device.{work_on};

use crate::parts::Parts;
use pcl_base::{Items, NoMemory, PageNo, Reply, TxId, Version};

/// An access that is granted: what it answers and changes.
impl Parts {
    /// A granted read of a page that has a copy. `reply` is empty with room for a page, so that
    /// nothing takes memory.
    #[tactic(auto, unfolding(node_rules::specs::AccessRule::perform))]
    pub(crate) fn perform_read(&mut self, tx: TxId, page: PageNo, reply: Vec<u8>) -> Reply
        requires copy { is_some (copy_at self.old.home.pool page) ≡ true }
        requires empty { length reply.items ≡ 0 }
        requires wide { self.old.home.pool.size ≤ vec_capacity reply }
        ensures home { self.new ≡ record self.old { home = (perform tx page None (work_on self.old.home)).work.home } }
        ensures reply { result ≡ (perform tx page None (work_on self.old.home)).reply }
    {
        let bytes = Items::of(self.bytes_into(tx, page, reply));
        let version = self.version(page);
        self.touch(page);
        Reply::Value {
            tx,
            page,
            version,
            bytes,
        }
    }

    /// A granted write of a page that has a copy and a private copy. It takes memory only for the
    /// places of a page that was written before, or for which there is no room.
    #[tactic(auto, unfolding(node_rules::specs::AccessRule::perform))]
    pub(crate) fn perform_write(
        &mut self,
        tx: TxId,
        page: PageNo,
        place: u32,
        bytes: &[u8],
    ) -> Result<Reply, NoMemory>
        requires sound { IsBuffer self.old.home.pool }
        requires copy { is_some (copy_at self.old.home.pool page) ≡ true }
        requires private { has_private self.old.home.pool tx page ≡ true }
        requires inside { place + length bytes.now ≤ self.old.home.pool.size }
        requires small { self.old.home.pool.size ≤ 4096 }
        ensures home { OnOk result (self.new ≡ record self.old { home = (perform tx page (Some (place, bytes.now)) (work_on self.old.home)).work.home; places = self.new.places }) }
        ensures reply { IfOk result (λ r. r ≡ (perform tx page (Some (place, bytes.now)) (work_on self.old.home)).reply) }
        ensures err { OnErr result (self.new ≡ record self.old { places = self.new.places }) }
        ensures first { runs_at self.old.home.written tx page ≡ [] → 0 < self.old.places → IsOk result }
        ensures room { self.old.places ≤ self.new.places + 1 }
    {
        self.note(tx, page, place, place + bytes.len() as u32)?;
        let version = self.version(page);
        self.touch(page);
        self.fill_once(tx, page);
        self.change(tx, page, place, bytes);
        Ok(Reply::Done { tx, page, version })
    }

    /// The version of the page's copy, 0 without one.
    pub(crate) fn version(&self, page: PageNo) -> Version
        ensures { result ≡ version_or (find self.now.home.pool page) }
    {
        match self.pool.find(page) {
            None => 0,
            Some(version) => version,
        }
    }

    /// The bytes that the transaction reads of the page, in a list that has room for them.
    fn bytes_into(&self, tx: TxId, page: PageNo, reply: Vec<u8>) -> Vec<u8>
        requires copy { is_some (copy_at self.now.home.pool page) ≡ true }
        requires empty { length reply.items ≡ 0 }
        requires wide { self.now.home.pool.size ≤ vec_capacity reply }
        ensures { result.items ≡ bytes_read self.now.home.pool tx page }
    {
        match self.pool.private_bytes(tx, page) {
            Some(bytes) => copied_into(reply, bytes),
            None => copied_into(reply, self.pool.bytes(page)),
        }
    }

    /// The private copy gets the bytes of the page's copy, unless it was filled.
    fn fill_once(&mut self, tx: TxId, page: PageNo)
        requires copy { is_some (copy_at self.old.home.pool page) ≡ true }
        requires private { has_private self.old.home.pool tx page ≡ true }
        ensures { self.new ≡ record self.old { home = with_pool self.old.home (filled self.old.home.pool tx page) } }
    {
        if self.is_filled(tx, page) {
            return;
        }
        self.fill(tx, page);
    }

    /// Whether the transaction's private copy of the page was filled.
    fn is_filled(&self, tx: TxId, page: PageNo) -> bool
        ensures { result ≡ is_some (private_bytes self.now.home.pool tx page) }
    {
        self.pool.private_bytes(tx, page).is_some()
    }

    /// Notes written places of a page.
    fn note(&mut self, tx: TxId, page: PageNo, from: u32, to: u32) -> Result<(), NoMemory>
        ensures ok { OnOk result (self.new ≡ record self.old { home = record (self.old.home) { written = put_runs self.old.home.written tx page (cover (runs_at self.old.home.written tx page) from to) }; places = self.new.places }) }
        ensures err { OnErr result (self.new ≡ record self.old { places = self.new.places }) }
        ensures first { runs_at self.old.home.written tx page ≡ [] → 0 < self.old.places → IsOk result }
        ensures room { self.old.places ≤ self.new.places + 1 }
    {
        self.written.note(tx, page, from, to)
    }
}

/// Bytes in an empty list that has room for them.
fn copied_into(reply: Vec<u8>, bytes: &[u8]) -> Vec<u8>
    requires empty { length reply.items ≡ 0 }
    requires wide { length bytes.now ≤ vec_capacity reply }
    ensures { result.items ≡ bytes.now }
{
    let mut reply = reply;
    reply.extend_from_slice(bytes).unwrap();
    reply
}
