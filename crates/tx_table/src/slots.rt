//! Where the open transactions stand: each in a slot of its own, found by its serial.
ghost use Rattle.std.specs.Prelude.{◌≡◌, ◌∷◌, ◌++◌, [], None, Some, IfOk, OnOk, OnErr, OnSome, IfNone, IsSome, length, map, nat_eq};
ghost use Rattle.std.specs.Borrow.{sem};
ghost use Rattle.std.specs.Map.{lookup, remove_entry};
ghost use Rattle.std.specs.Option.{option_copied};
ghost use Rattle.tx_table.specs.Lending.{LendsAt};

use crate::open::Open;
use indexmap::IndexMap;
use pcl_base::{NoMemory, NodeNo, TxId};
use slab::Slab;
use std::alloc::{AllocError, Global};
use std::marker::Model;

/// The open transactions under their serials, in the order in which they came.
#[derive(Drop)]
pub(crate) struct Slots {
    slots: Slab<Open>,
    /// The slot of each serial.
    keys: IndexMap<u32, usize>,
}

impl Model for Slots {
    ghost use Rattle.std.specs.Prelude.{List, ℕ};
    ghost use Rattle.node_rules.specs.OpenTxs.{OpenTx};
    ghost use Rattle.tx_table.specs.Slots.{rows, HasSlots};

    ghost Value = { List (ℕ × OpenTx) };

    ghost view = { λ t. rows t.slots.slots t.keys.entries };

    ghost invariant = { λ t. HasSlots t.slots.slots t.keys.entries };
}

impl Slots {
    /// No transaction. It takes no memory.
    pub(crate) fn new(alloc: Global) -> Slots
        ensures { result ≡ [] }
    {
        Slots {
            slots: Slab::new(alloc),
            keys: IndexMap::new(alloc),
        }
    }

    /// The number of transactions.
    pub(crate) fn len(&self) -> usize
        ensures { result ≡ length self.now }
    {
        self.keys.len()
    }

    /// Puts a transaction last, under a serial that is new.
    pub(crate) fn push(&mut self, serial: u32, transaction: Open) -> Result<(), NoMemory>
        requires { lookup (nat_eq serial) self.old ≡ None }
        ensures ok { OnOk result (self.new ≡ self.old ++ (serial, transaction) ∷ []) }
        ensures err { OnErr result (self.new ≡ self.old) }
    {
        self.slots.reserve(1)?;
        self.keys.reserve(1)?;
        let key = self.slots.insert_reserved(transaction);
        match self.keys.insert(serial, key).unwrap() {
            None => Ok(()),
            Some(_key) => unreachable!(),
        }
    }

    /// The transaction of a serial.
    pub(crate) fn get(&self, serial: u32) -> Option<&Open>
        ensures { option_copied result ≡ lookup (nat_eq serial) self.now }
    {
        match self.keys.get(&serial) {
            None => None,
            Some(key) => self.slots.get(*key),
        }
    }

    /// The transaction of a serial that has one, to be changed.
    pub(crate) fn at(&mut self, serial: u32) -> &mut Open
        requires { IsSome (lookup (nat_eq serial) self.old) }
        ensures* writes_back { sem 𝓛 (LendsAt self.entry serial result) }
        ensures value { Some result.now ≡ lookup (nat_eq serial) self.old }
    {
        let key = *self.keys.get(&serial).unwrap();
        self.slots.get_mut(key).unwrap()
    }

    /// Takes the transaction of a serial out.
    pub(crate) fn remove(&mut self, serial: u32) -> Option<Open>
        ensures value { result ≡ lookup (nat_eq serial) self.old }
        ensures rest { self.new ≡ remove_entry (nat_eq serial) self.old }
        ensures none { IfNone result (self.new ≡ self.old) }
    {
        match self.keys.shift_remove(&serial) {
            None => None,
            Some(key) => self.slots.try_remove(key),
        }
    }

    /// The names of the transactions of a node's birth, in order.
    pub(crate) fn names(
        &self,
        alloc: Global,
        node: NodeNo,
        born: u32,
    ) -> Result<Vec<TxId>, NoMemory>
        ensures { IfOk result (λ ts. ts.items ≡ map (λ e. record { node = node; born = born; serial = e.0 }) self.now) }
    {
        Ok(names_of(&self.keys, alloc, node, born)?)
    }
}

/// The names under the serials of a map, for a node and its birth.
fn names_of(
    keys: &IndexMap<u32, usize>,
    alloc: Global,
    node: NodeNo,
    born: u32,
) -> Result<Vec<TxId>, AllocError>
    ensures { IfOk result (λ ts. ts.items ≡ map (λ e. record { node = node; born = born; serial = e.0 }) keys.now.entries) }
{
    keys.iter()
        .map(|(serial, _)| TxId {
            node,
            born,
            serial: *serial,
        })
        .collect(alloc)
}
