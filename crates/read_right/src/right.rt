ghost use Rattle.std.specs.Prelude.{◌≡◌, ◌≤◌, ◌<◌, ◌+◌, ◌++◌, ◌∷◌, [], not, true, false, length, vec_capacity};
ghost use Rattle.std.specs.List.{filter, list_any};
ghost use Rattle.node_rules.specs.Words.{pick, same_tx};

use pcl_base::{TxId, Version};

/// The right of this node to read one page, at one version, without asking the page's owner.
///
/// It can't be dropped and nobody can make one: `Shelf::accept` alone does, and it ends in
/// `give_back`, `turn` or `forfeit_all` of the shelf. Program text that lets a right go in another
/// way doesn't compile.
#[derive(Debug)]
pub struct ReadRight {
    pub(crate) version: Version,
    pub(crate) readers: Vec<TxId>,
    pub(crate) ready: bool,
}

// A right gets an empty list with room for one more reader, where it isn't ready yet.
pub(crate) fn make_ready(right: &mut ReadRight, mut readers: Vec<TxId>)
    requires empty { length readers.items ≡ 0 }
    requires room { length right.old.readers.items + 1 ≤ vec_capacity readers }
    requires own_room { right.old.ready ≡ true → length right.old.readers.items + 1 ≤ vec_capacity right.old.readers }
    ensures version { right.new.version ≡ right.old.version }
    ensures readers { right.new.readers.items ≡ right.old.readers.items }
    ensures ready { right.new.ready ≡ true }
    ensures room { length right.old.readers.items + 1 ≤ vec_capacity right.new.readers }
{
    if right.ready {
        return;
    }
    readers.extend_from_slice(right.readers.as_slice()).unwrap();
    right.readers = readers;
    right.ready = true;
}

// A transaction reads under a ready right, where it doesn't already. The right isn't ready then.
pub(crate) fn put_reader(right: &mut ReadRight, tx: TxId)
    requires { length right.old.readers.items < vec_capacity right.old.readers }
    ensures version { right.new.version ≡ right.old.version }
    ensures readers { right.new.readers.items ≡ pick (list_any (λ u. same_tx u tx) right.old.readers.items) right.old.readers.items (right.old.readers.items ++ tx ∷ []) }
    ensures ready { right.new.ready ≡ false }
    ensures room { vec_capacity right.new.readers ≡ vec_capacity right.old.readers }
    ensures short { length right.new.readers.items ≤ length right.old.readers.items + 1 }
{
    right.ready = false;
    if reads(right.readers.as_slice(), tx) {
        return;
    }
    right.readers.push_reserved(tx);
}

// A transaction reads under a right no more.
pub(crate) fn end_reader(right: &mut ReadRight, tx: TxId)
    ensures version { right.new.version ≡ right.old.version }
    ensures readers { right.new.readers.items ≡ filter (λ u. not (same_tx u tx)) right.old.readers.items }
    ensures ready { right.new.ready ≡ right.old.ready }
    ensures room { vec_capacity right.new.readers ≡ vec_capacity right.old.readers }
    ensures short { length right.new.readers.items ≤ length right.old.readers.items }
{
    right.readers.retain(|reader| !same_tx(*reader, tx));
}

// Whether a transaction is among these.
fn reads(readers: &[TxId], tx: TxId) -> bool
    ensures { result ≡ list_any (λ u. same_tx u tx) readers.now }
{
    readers.iter().any(|reader| same_tx(*reader, tx))
}

// Whether two names are those of one transaction.
fn same_tx(a: TxId, b: TxId) -> bool
    ensures { result ≡ same_tx a b }
{
    a.node == b.node && a.born == b.born && a.serial == b.serial
}
