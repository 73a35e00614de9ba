ghost use Rattle.std.specs.Prelude.{◌≡◌, ◌+◌, ◌≤◌, ◌<◌, [], true, length, is_some, vec_capacity};
ghost use Rattle.node_rules.specs.BufferRule.{copy_at, has_private, find, touch, change};
ghost use Rattle.node_rules.specs.NodeState.{cover, runs_at, put_runs};
ghost use Rattle.node_rules.specs.OpenTxs.{add, pending_of, waits_on};
ghost use Rattle.node_rules.specs.AccessRule.{filled, locked, perform, version_or, write_of};
ghost use Rattle.pcl_base.specs.declared.reply.Reply.TheVariants.{Done as done};
ghost use Rattle.buffer_pool.specs.Buffer.{IsBuffer};
ghost use Rattle.home.specs.Device.{work_on};
ghost use Rattle.home.specs.Grants.{MayEnd};

use crate::parts::Parts;
use crate::written::WrittenPlaces;
use buffer_pool::BufferPool;
use pcl_base::{Held, PageNo, Reply, TxId, Version};

/// The access that waits and is granted. Nothing here takes memory.
impl Parts {
    /// The transaction gets its lock, and its access is done.
    pub(crate) fn finish(&mut self, tx: TxId, lock: Held) -> Reply
        requires may { MayEnd tx lock.page self.old }
        ensures home { self.new.home ≡ (locked tx lock (write_of (pending_of self.old.home.txs tx)) (work_on self.old.home)).work.home }
        ensures reply { result ≡ (locked tx lock (write_of (pending_of self.old.home.txs tx)) (work_on self.old.home)).reply }
        ensures same { self.new ≡ record self.old { home = self.new.home; places = self.new.places; replies = self.new.replies } }
        ensures places { self.old.places ≤ self.new.places + 1 }
        ensures replies { self.old.replies ≤ self.new.replies + 1 }
    {
        let reply = self.do_waiting(tx, lock.page);
        self.lock(tx, lock);
        reply
    }

    /// The access is done under the lock that it will have.
    fn do_waiting(&mut self, tx: TxId, page: PageNo) -> Reply
        requires may { MayEnd tx page self.old }
        ensures home { self.new ≡ record self.old { home = (perform tx page (write_of (pending_of self.old.home.txs tx)) (work_on self.old.home)).work.home; places = self.new.places; replies = self.new.replies } }
        ensures reply { result ≡ (perform tx page (write_of (pending_of self.old.home.txs tx)) (work_on self.old.home)).reply }
        ensures places { self.old.places ≤ self.new.places + 1 }
        ensures replies { self.old.replies ≤ self.new.replies + 1 }
    {
        if self.waits_to_write(tx) {
            return self.write_waiting(tx, page);
        }
        let reply = self.take_reply();
        self.perform_read(tx, page, reply)
    }

    /// Whether a transaction waits for a write.
    fn waits_to_write(&self, tx: TxId) -> bool
        ensures { result ≡ is_some (write_of (pending_of self.now.home.txs tx)) }
    {
        match self.txs.pending(tx) {
            None => false,
            Some(access) => access.write.is_some(),
        }
    }

    /// The write that waits is done.
    #[tactic(auto, unfolding(node_rules::specs::AccessRule::perform))]
    fn write_waiting(&mut self, tx: TxId, page: PageNo) -> Reply
        requires may { MayEnd tx page self.old }
        requires write { is_some (write_of (pending_of self.old.home.txs tx)) ≡ true }
        ensures home { self.new ≡ record self.old { home = (perform tx page (write_of (pending_of self.old.home.txs tx)) (work_on self.old.home)).work.home; places = self.new.places } }
        ensures reply { result ≡ (perform tx page (write_of (pending_of self.old.home.txs tx)) (work_on self.old.home)).reply }
        ensures places { self.old.places ≤ self.new.places + 1 }
    {
        let size = self.config.size();
        match self.txs.pending(tx) {
            None => unreachable!(),
            Some(access) => match &access.write {
                None => unreachable!(),
                Some((place, bytes)) => write_granted(
                    &mut self.pool,
                    &mut self.written,
                    tx,
                    page,
                    *place,
                    bytes.as_slice(),
                ),
            },
        }
    }

    /// The transaction, which waits for the page, gets its lock.
    fn lock(&mut self, tx: TxId, lock: Held)
        requires { waits_on (pending_of self.old.home.txs tx) lock.page ≡ true }
        ensures { self.new ≡ record self.old { home = record (self.old.home) { txs = add self.old.home.txs tx lock } } }
    {
        match self.txs.add(tx, lock) {
            Ok(()) => return,
            Err(_) => unreachable!(),
        }
    }

    /// An empty list with room for a page, out of the stock.
    fn take_reply(&mut self) -> Vec<u8>
        requires { 1 ≤ self.old.replies }
        ensures empty { length result.items ≡ 0 }
        ensures wide { self.old.home.config.size ≤ vec_capacity result }
        ensures same { self.new ≡ record self.old { replies = self.new.replies } }
        ensures count { self.old.replies ≡ self.new.replies + 1 }
    {
        match self.replies.pop() {
            None => unreachable!(),
            Some(reply) => reply,
        }
    }
}

/// A granted write of a page that has a copy and a private copy, and was not written before.
fn write_granted(
    pool: &mut BufferPool,
    written: &mut WrittenPlaces,
    tx: TxId,
    page: PageNo,
    place: u32,
    bytes: &[u8],
) -> Reply
    requires sound { IsBuffer pool.old }
    requires copy { is_some (copy_at pool.old page) ≡ true }
    requires private { has_private pool.old tx page ≡ true }
    requires inside { place + length bytes.now ≤ pool.old.size }
    requires small { pool.old.size ≤ 4096 }
    requires first { runs_at written.old.places tx page ≡ [] }
    requires room { 0 < written.old.spare }
    ensures pool { pool.new ≡ change (filled (touch pool.old page) tx page) tx page place bytes.now }
    ensures written { written.new.places ≡ put_runs written.old.places tx page (cover (runs_at written.old.places tx page) place (place + length bytes.now)) }
    ensures room { written.old.spare ≤ written.new.spare + 1 }
    ensures reply { result ≡ done tx page (version_or (find pool.old page)) }
{
    let version = version_in(pool, page);
    written
        .note(tx, page, place, place + bytes.len() as u32)
        .unwrap();
    pool.touch(page);
    fill_once(pool, tx, page);
    pool.change(tx, page, place, bytes);
    Reply::Done { tx, page, version }
}

/// The version of the page's copy, 0 without one.
fn version_in(pool: &BufferPool, page: PageNo) -> Version
    ensures { result ≡ version_or (find pool.now page) }
{
    match pool.find(page) {
        None => 0,
        Some(version) => version,
    }
}

/// The transaction's private copy has the bytes of the page's copy, unless it was filled before.
fn fill_once(pool: &mut BufferPool, tx: TxId, page: PageNo)
    requires copy { is_some (copy_at pool.old page) ≡ true }
    requires private { has_private pool.old tx page ≡ true }
    ensures { pool.new ≡ filled pool.old tx page }
{
    if pool.private_bytes(tx, page).is_some() {
        return;
    }
    pool.fill(tx, page);
}
