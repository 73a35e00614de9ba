ghost use Rattle.std.specs.Prelude.{◌≡◌, true, is_some};
ghost use Rattle.std.specs.Option.{option_copied};
ghost use Rattle.node_rules.specs.BufferRule.{copy_at};
ghost use Rattle.node_rules.specs.OpenTxs.{held_by};
ghost use Rattle.node_rules.specs.AccessRule.{bytes_read};
ghost use Rattle.home.specs.Ends.{bytes_held};

use crate::home::Home;
use crate::parts::Parts;
use pcl_base::{PageNo, TxId};

impl Home {
    /// The bytes that a read of a page gives to a transaction that holds it; `None` exactly where it
    /// doesn't hold the page. It takes no memory.
    pub fn held(&self, tx: TxId, page: PageNo) -> Option<&[u8]>
        ensures { option_copied result ≡ bytes_held self.now tx page }
    {
        if !self.parts.has_lock(tx, page) {
            return None;
        }
        Some(self.parts.bytes_read(tx, page))
    }
}

impl Parts {
    /// Whether a transaction holds a page.
    pub(crate) fn has_lock(&self, tx: TxId, page: PageNo) -> bool
        ensures { result ≡ is_some (held_by self.now.home.txs tx page) }
    {
        self.txs.held(tx, page).is_some()
    }

    /// The bytes that a read of a page gives to a transaction; the page has a copy.
    pub(crate) fn bytes_read(&self, tx: TxId, page: PageNo) -> &[u8]
        requires { is_some (copy_at self.now.home.pool page) ≡ true }
        ensures { result.now ≡ bytes_read self.now.home.pool tx page }
    {
        match self.pool.private_bytes(tx, page) {
            Some(bytes) => bytes,
            None => self.pool.bytes(page),
        }
    }
}
