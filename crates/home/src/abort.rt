ghost use Rattle.std.specs.Prelude.{◌≡◌, ◌↔◌, true, map, Some, Err, IfOk, OnOk, OnErr};
ghost use Rattle.pcl_base.specs.declared.reply.Reason.{Reason as Why};
ghost use Rattle.node_rules.specs.OpenTxs.{is_open};
ghost use Rattle.node_rules.specs.EndRule.{abort, closed, pages_at_end};
ghost use Rattle.home_laws.specs.Homes.{IsHome};
ghost use Rattle.home_laws.specs.RefusedEnds.{abort_refusal};
ghost use Rattle.home.specs.Device.{work_on};
ghost use Rattle.home.specs.Ends.{IsAbortFault};
ghost use Rattle.home.specs.Parts.{IsPrepared};

use crate::ending::Ending;
use crate::fault::HomeFault;
use crate::home::Home;
use crate::leave::discard_all;
use crate::parts::Parts;
use pcl_base::{NoMemory, Reason, TxId};

impl Home {
    /// Gives a transaction up: its private copies are gone, its pages are unpinned, and it reads no
    /// more under a right. Answers what is told of each page that it held or waited for, in the order
    /// of first access; none of it has a change. The end rule is carried out here.
    ///
    /// `Refused(NoTx)` exactly where it isn't open. Else `NoMemory` only where memory is wanting. Both
    /// leave all as before, and no other fault comes.
    pub fn abort(&mut self, tx: TxId) -> Result<Vec<Ending>, HomeFault>
        ensures endings { IfOk result (λ ends. ends.items ≡ (abort tx (work_on self.old)).endings) }
        ensures home { OnOk result (self.new ≡ (abort tx (work_on self.old)).work.home) }
        ensures refused { (r : Why) → (result ≡ Err (HomeFault.Refused r)) ↔ (abort_refusal tx self.old ≡ Some r) }
        ensures fault { IsAbortFault result }
        ensures err { OnErr result (self.new ≡ self.old) }
    {
        if !self.parts.is_open(tx) {
            return Err(HomeFault::Refused(Reason::NoTx));
        }
        match self.parts.endings(tx) {
            Err(NoMemory) => Err(HomeFault::NoMemory),
            Ok(ends) => {
                self.parts.abort(tx, ends.as_slice());
                Ok(ends)
            }
        }
    }
}

impl Parts {
    /// Whether a transaction is open.
    pub(crate) fn is_open(&self, tx: TxId) -> bool
        ensures { result ≡ is_open self.now.home.txs tx }
    {
        self.txs.is_open(tx)
    }

    /// The same of the parts, where these are the pages at the end. It takes no memory.
    pub(crate) fn abort(&mut self, tx: TxId, ends: &[Ending])
        requires home { IsHome self.old.home }
        requires open { is_open self.old.home.txs tx ≡ true }
        requires pages { map (λ e. e.page) ends.now ≡ pages_at_end self.old.home tx }
        ensures home { self.new.home ≡ closed self.old.home tx self.old.home.pool }
        ensures prepared { IsPrepared self.old → IsPrepared self.new }
    {
        discard_all(&mut self.pool, tx, self.txs.locks(tx), self.txs.pending(tx));
        self.close_tx(tx, ends);
    }
}
