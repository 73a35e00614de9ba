ghost use Rattle.std.specs.Prelude.{◌≡◌, ◌+◌, ◌≤◌, OnOk, OnErr, IfOk, None, true};
ghost use Rattle.node_rules.specs.OpenTxs.{is_open, pending_of};
ghost use Rattle.node_rules.specs.AccessRule.{mode_of_write, waiting};
ghost use Rattle.tx_table.specs.Counts.{wait_count};
ghost use Rattle.home.specs.Asked.{asked};
ghost use Rattle.home.specs.Parts.{HasMemory, KeepsMemory};

use crate::access::Access;
use crate::parts::Parts;
use pcl_base::{Mode, NoMemory, Pending};

/// The memory of an access that waits, and of its grant.
impl Parts {
    /// Takes the memory for the grant of one more waiting access. It may grow where it isn't enough.
    pub(crate) fn reserve_grant(&mut self) -> Result<(), NoMemory>
        requires { wait_count self.old.home.txs.txs ≤ self.old.replies }
        ensures home { self.new.home ≡ self.old.home }
        ensures kept { KeepsMemory self.old self.new }
        ensures memory { OnOk result (HasMemory (wait_count self.old.home.txs.txs + 1) self.new) }
    {
        let Some(grants) = self.txs.wait_count().checked_add(1) else {
            return Err(NoMemory);
        };
        self.shelf.reserve(grants)?;
        self.written.reserve(grants)?;
        self.reserve_reply(grants)
    }

    /// Takes the memory of a reply where there is that for one less than `grants`.
    fn reserve_reply(&mut self, grants: usize) -> Result<(), NoMemory>
        requires { grants ≤ self.old.replies + 1 }
        ensures same { self.new ≡ record self.old { replies = self.new.replies } }
        ensures kept { self.old.replies ≤ self.new.replies }
        ensures enough { OnOk result (grants ≤ self.new.replies) }
    {
        if self.replies.len() >= grants {
            return Ok(());
        }
        let page = Vec::with_capacity(self.alloc, self.config.size() as usize)?;
        self.replies.push(page)?;
        Ok(())
    }

    /// The transaction waits for the access, with the memory for its lock.
    pub(crate) fn enter(&mut self, a: &Access) -> Result<(), NoMemory>
        requires open { is_open self.old.home.txs a.now.tx ≡ true }
        requires none { pending_of self.old.home.txs a.now.tx ≡ None }
        ensures ok { OnOk result (self.new ≡ record self.old { home = waiting (asked a.now) self.old.home }) }
        ensures err { OnErr result (self.new ≡ self.old) }
    {
        let access = pending(a)?;
        self.txs.wait(a.tx, access)
    }
}

/// The access that waits: with bytes of its own.
fn pending(a: &Access) -> Result<Pending, NoMemory>
    ensures { IfOk result (λ w. w ≡ record { page = a.now.page; mode = mode_of_write a.now.write; write = a.now.write }) }
{
    match &a.write {
        None => Ok(Pending {
            page: a.page,
            mode: Mode::Shared,
            write: None,
        }),
        Some((place, bytes)) => Ok(Pending {
            page: a.page,
            mode: Mode::Exclusive,
            write: Some((*place, bytes.copy()?)),
        }),
    }
}
