ghost use Rattle.std.specs.Prelude.{◌≡◌, ◌+◌, ◌≤◌, ◌<◌, Err, true, false, length, is_some, IfSome, IfOk, OnOk, OnErr, ◌↔◌};
ghost use Rattle.node_rules.specs.BufferRule.{has_slot, has_private, pinned, dirty, copy_at, slot_at, free_frames, clean, evict, place, private, pin, touch, fill, change, install};
ghost use Rattle.node_rules.specs.OpenTxs.{begin, name_of};
ghost use Rattle.node_rules.specs.Work.{with_pool};

use crate::parts::Parts;
use pcl_base::{PageNo, TxId, Version};
use tx_table::BeginFault;

/// Single changes of the parts. None of them takes memory, but `begin`.
impl Parts {
    /// Opens a transaction of the next serial.
    pub(crate) fn begin(&mut self) -> Result<TxId, BeginFault>
        ensures ok { OnOk result (self.new ≡ record self.old { home = record (self.old.home) { txs = begin self.old.home.txs } }) }
        ensures name { IfOk result (λ t. t ≡ name_of self.old.home.txs (self.old.home.txs.last + 1)) }
        ensures serial_end { (result ≡ Err BeginFault.SerialEnd) ↔ (self.old.home.txs.last ≡ 4_294_967_295) }
        ensures too_many { result ≡ Err BeginFault.TooMany → 1024 ≤ length self.old.home.txs.txs }
        ensures some { OnOk result (length self.old.home.txs.txs < 1024) }
        ensures no_memory { result ≡ Err BeginFault.NoMemory → length self.old.home.txs.txs < 1024 }
        ensures err { OnErr result (self.new ≡ self.old) }
    {
        self.txs.begin()
    }

    /// The page's copy is clean.
    pub(crate) fn clean(&mut self, page: PageNo)
        requires { has_slot self.old.home.pool page ≡ true }
        ensures { self.new ≡ record self.old { home = with_pool self.old.home (clean self.old.home.pool page) } }
    {
        self.pool.clean(page);
    }

    /// The page's slot leaves.
    pub(crate) fn evict(&mut self, page: PageNo)
        requires copy { is_some (copy_at self.old.home.pool page) ≡ true }
        requires unpinned { pinned self.old.home.pool page ≡ false }
        requires clean { dirty self.old.home.pool page ≡ false }
        ensures { self.new ≡ record self.old { home = with_pool self.old.home (evict self.old.home.pool page) } }
    {
        let _answer = self.pool.evict(page);
    }

    /// A place for the page takes a free frame.
    pub(crate) fn place(&mut self, page: PageNo)
        requires free { 0 < free_frames self.old.home.pool }
        requires none { has_slot self.old.home.pool page ≡ false }
        ensures { self.new ≡ record self.old { home = with_pool self.old.home (place self.old.home.pool page) } }
    {
        self.pool.place(page);
    }

    /// A private copy of the page takes a free frame.
    pub(crate) fn private(&mut self, tx: TxId, page: PageNo)
        requires free { 0 < free_frames self.old.home.pool }
        requires none { has_private self.old.home.pool tx page ≡ false }
        ensures { self.new ≡ record self.old { home = with_pool self.old.home (private self.old.home.pool tx page) } }
    {
        self.pool.private(tx, page);
    }

    /// One more transaction holds the page or waits for it.
    pub(crate) fn pin(&mut self, page: PageNo)
        requires slot { has_slot self.old.home.pool page ≡ true }
        requires few { IfSome (slot_at self.old.home.pool page) (λ s. s.pins < 4_294_967_295) }
        ensures { self.new ≡ record self.old { home = with_pool self.old.home (pin self.old.home.pool page) } }
    {
        self.pool.pin(page);
    }

    /// The page's slot moves to the front.
    pub(crate) fn touch(&mut self, page: PageNo)
        requires { has_slot self.old.home.pool page ≡ true }
        ensures { self.new ≡ record self.old { home = with_pool self.old.home (touch self.old.home.pool page) } }
    {
        self.pool.touch(page);
    }

    /// The page's slot gets a copy.
    pub(crate) fn install(&mut self, page: PageNo, version: Version, bytes: &[u8], dirty: bool)
        requires slot { has_slot self.old.home.pool page ≡ true }
        requires size { length bytes.now ≡ self.old.home.pool.size }
        ensures { self.new ≡ record self.old { home = with_pool self.old.home (install self.old.home.pool page (record { version = version; bytes = bytes.now; dirty = dirty })) } }
    {
        self.pool.install(page, version, bytes, dirty);
    }

    /// The transaction's private copy gets the bytes of the page's copy.
    pub(crate) fn fill(&mut self, tx: TxId, page: PageNo)
        requires copy { is_some (copy_at self.old.home.pool page) ≡ true }
        requires private { has_private self.old.home.pool tx page ≡ true }
        ensures { self.new ≡ record self.old { home = with_pool self.old.home (fill self.old.home.pool tx page) } }
    {
        self.pool.fill(tx, page);
    }

    /// Bytes are put over the transaction's private copy of the page.
    pub(crate) fn change(&mut self, tx: TxId, page: PageNo, place: u32, bytes: &[u8])
        requires private { has_private self.old.home.pool tx page ≡ true }
        requires inside { place + length bytes.now ≤ self.old.home.pool.size }
        ensures { self.new ≡ record self.old { home = with_pool self.old.home (change self.old.home.pool tx page place bytes.now) } }
    {
        self.pool.change(tx, page, place, bytes);
    }
}
