ghost use Rattle.std.specs.Prelude.{◌≡◌, true, None, map, IfOk};
ghost use Rattle.std.specs.List.{AllByRecursion};
ghost use Rattle.node_rules.specs.Words.{is_exclusive};
ghost use Rattle.node_rules.specs.OpenTxs.{pending_of};
ghost use Rattle.node_rules.specs.EndRule.{endings, new_bytes, pages_written};
ghost use Rattle.home_laws.specs.Homes.{IsHome};
ghost use Rattle.home_laws.specs.EndNeeds.{IsBelowLast, IsPublishable};
ghost use Rattle.home.specs.Commits.{told, commit_end, image_told};

use crate::ending::Ending;
use crate::parts::Parts;
use page_transfer::private_out;
use pcl_base::{Change, Held, Items, Kind, Mode, NoMemory, Page, TxId};

/// What a commit tells.
impl Parts {
    /// What is told of each page at the commit of a transaction that doesn't wait.
    pub(crate) fn commit_endings(&self, tx: TxId) -> Result<Vec<Ending>, NoMemory>
        requires home { IsHome self.now.home }
        requires none { pending_of self.now.home.txs tx ≡ None }
        requires below { AllByRecursion (IsBelowLast self.now.home.pool) (pages_written self.now.home tx) }
        ensures { IfOk result (λ ends. ends.items ≡ map told (endings self.now.home tx true)) }
    {
        let locks = self.txs.locks(tx);
        let mut ends = Vec::with_capacity(self.alloc, locks.len())?;
        for lock in locks {
            ends.push(self.commit_end(tx, lock)?)?;
        }
        Ok(ends)
    }

    /// What is told of a page that is held.
    fn commit_end(&self, tx: TxId, lock: &Held) -> Result<Ending, NoMemory>
        requires { is_exclusive lock.now.mode ≡ true → IsPublishable tx self.now.home.pool lock.now.page }
        ensures { IfOk result (λ e. e ≡ commit_end self.now.home tx lock.now) }
    {
        Ok(Ending {
            page: lock.page,
            kind: lock.kind,
            change: self.change_told(tx, lock)?,
        })
    }

    /// The page as a commit leaves it, where it was written.
    fn change_told(&self, tx: TxId, lock: &Held) -> Result<Option<Change>, NoMemory>
        requires { is_exclusive lock.now.mode ≡ true → IsPublishable tx self.now.home.pool lock.now.page }
        ensures { IfOk result (λ c. c ≡ (commit_end self.now.home tx lock.now).change) }
    {
        match lock.mode {
            Mode::Shared => Ok(None),
            Mode::Exclusive => Ok(Some(Change {
                version: self.version(lock.page) + 1,
                image: self.image_told(tx, lock)?,
            })),
        }
    }

    /// The image that is told of a page that was written: none where it is held by an own lock.
    fn image_told(&self, tx: TxId, lock: &Held) -> Result<Page, NoMemory>
        requires { IsPublishable tx self.now.home.pool lock.now.page }
        ensures { IfOk result (λ image. image ≡ image_told lock.now.kind (new_bytes self.now.home tx lock.now.page)) }
    {
        match lock.kind {
            Kind::Own => Ok(Items::new(self.alloc)),
            Kind::Registered => private_out(self.alloc, &self.pool, tx, lock.page),
            Kind::Right => private_out(self.alloc, &self.pool, tx, lock.page),
        }
    }
}
