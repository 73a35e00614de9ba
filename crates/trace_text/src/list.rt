ghost use Rattle.std.specs.Prelude.{◌≡◌, ◌++◌, ◌∷◌, ℕ, List, OnOk, map, flat_map};
ghost use Rattle.text_rules.specs.ScheduleLine.{tx_text};
ghost use Rattle.text_rules.specs.TraceText.{list_text, lock_text, mark_text, wait_text};

use crate::words::{put, put_mode, put_number, put_tx, put_version};
use pcl_base::{Mode, NoMemory, PageNo, ReportLock, ReportRight, ReportWait, TxId};

/// What stands in the lists of messages.
pub(crate) trait Item {
    /// The text of the item.
    ghost text: { Self → List ℕ };

    /// Appends the item.
    fn put(&self, out: &mut Vec<u8>) -> Result<(), NoMemory>
        ensures { OnOk result (out.new.items ≡ out.old.items ++ text self.now) };
}

impl Item for TxId {
    ghost text = { tx_text };

    fn put(&self, out: &mut Vec<u8>) -> Result<(), NoMemory> {
        put_tx(out, *self)
    }
}

impl Item for ReportWait {
    ghost text = { wait_text };

    fn put(&self, out: &mut Vec<u8>) -> Result<(), NoMemory> {
        put_lock(out, self.tx, self.page, self.mode)?;
        put(out, b":")?;
        put_version(out, self.have)
    }
}

impl Item for ReportLock {
    ghost text = { lock_text };

    fn put(&self, out: &mut Vec<u8>) -> Result<(), NoMemory> {
        put_lock(out, self.tx, self.page, self.mode)
    }
}

impl Item for ReportRight {
    ghost text = { mark_text };

    fn put(&self, out: &mut Vec<u8>) -> Result<(), NoMemory> {
        put_number(out, self.page as u64)?;
        put(out, b":")?;
        put_number(out, self.version)
    }
}

/// Appends a transaction, a page and a mode with colons between them.
fn put_lock(out: &mut Vec<u8>, tx: TxId, page: PageNo, mode: Mode) -> Result<(), NoMemory>
    ensures { OnOk result (out.new.items ≡ out.old.items ++ lock_text (record { tx = tx; page = page; mode = mode })) }
{
    put_tx(out, tx)?;
    put(out, b":")?;
    put_number(out, page as u64)?;
    put(out, b":")?;
    put_mode(out, mode)
}

/// Appends a list with commas between its items, or `-` for none.
pub(crate) fn put_list<T: Item>(out: &mut Vec<u8>, items: &[T]) -> Result<(), NoMemory>
    ensures { OnOk result (out.new.items ≡ out.old.items ++ list_text (map T.text items.now)) }
{
    match items.split_first() {
        None => put(out, b"-"),
        Some((first, others)) => {
            first.put(out)?;
            put_others(out, others)
        }
    }
}

/// Appends items, each after a comma.
fn put_others<T: Item>(out: &mut Vec<u8>, items: &[T]) -> Result<(), NoMemory>
    ensures { OnOk result (out.new.items ≡ out.old.items ++ flat_map (λ x. 44 ∷ T.text x) items.now) }
{
    for item in items {
        put(out, b",")?;
        item.put(out)?;
    }
    Ok(())
}
