ghost use Rattle.std.specs.Prelude.{◌≡◌, ◌≤◌, ◌<◌, ◌+◌, ◌↔◌, Err, IfOk, OnOk, OnErr, length};
ghost use Rattle.node_rules.specs.OpenTxs.{begin, name_of};
ghost use Rattle.node_rules.specs.NodeState.{open_home};
ghost use Rattle.home_laws.specs.Homes.{IsHome};

use crate::parts::Parts;
use buffer_pool::BufferPool;
use pcl_base::{Config, NoMemory, NodeNo, TxId};
use read_right::Shelf;
use std::alloc::Global;
use std::marker::Model;
use tx_table::{BeginFault, TxTable};

/// The home of a node's transactions: the open ones, the node's rights to read pages of others, and
/// its buffer. Contracts see it as the home of the rules, and what holds of every home holds of it.
///
/// It can't be dropped: `close` ends its rights and gives its frames back.
pub struct Home {
    pub(crate) parts: Parts,
}

impl Model for Home {
    ghost use Rattle.node_rules.specs.NodeState.{HomeState};
    ghost use Rattle.home_laws.specs.Homes.{IsHome};
    ghost use Rattle.home.specs.Parts.{IsPrepared};

    ghost Value = { HomeState };

    ghost view = { λ h. h.parts.home };

    ghost invariant = { λ h. IsHome h.parts.home × IsPrepared h.parts };
}

impl Home {
    /// The home of node `me`, born in epoch `born`, where nothing was begun. It takes the memory of
    /// the whole buffer.
    pub fn open(alloc: Global, config: &Config, me: NodeNo, born: u32) -> Result<Home, NoMemory>
        requires { me < config.now.nodes }
        ensures { IfOk result (λ h. h ≡ open_home config.now me born) }
    {
        Ok(Home {
            parts: Parts::open(alloc, config, me, born)?,
        })
    }

    /// Ends the rights, gives the frames back and lets the memory go. It takes no memory.
    pub fn close(self) {
        let Home { parts } = self;
        parts.close();
    }

    /// Opens a transaction of the next serial: `SerialEnd` exactly where there is none, else
    /// `TooMany` exactly where 1,024 are open, else perhaps `NoMemory`. A fault leaves all as before.
    pub fn begin(&mut self) -> Result<TxId, BeginFault>
        requires { 1 ≤ self.old.txs.born }
        ensures ok { OnOk result (self.new ≡ record self.old { txs = begin self.old.txs }) }
        ensures name { IfOk result (λ t. t ≡ name_of self.old.txs (self.old.txs.last + 1)) }
        ensures serial_end { (result ≡ Err BeginFault.SerialEnd) ↔ (self.old.txs.last ≡ 4_294_967_295) }
        ensures too_many { result ≡ Err BeginFault.TooMany → 1024 ≤ length self.old.txs.txs }
        ensures some { OnOk result (length self.old.txs.txs < 1024) }
        ensures no_memory { result ≡ Err BeginFault.NoMemory → length self.old.txs.txs < 1024 }
        ensures err { OnErr result (self.new ≡ self.old) }
    {
        self.parts.begin()
    }

    /// The configuration.
    pub fn config(&self) -> &Config
        ensures value { result.now ≡ self.now.config }
        ensures home { IsHome self.now }
    {
        &self.parts.config
    }

    /// The open transactions.
    pub fn txs(&self) -> &TxTable
        ensures value { result.now ≡ self.now.txs }
        ensures home { IsHome self.now }
    {
        &self.parts.txs
    }

    /// The rights to read pages of others.
    pub fn shelf(&self) -> &Shelf
        ensures value { result.now.rights ≡ self.now.shelf }
        ensures home { IsHome self.now }
    {
        &self.parts.shelf
    }

    /// The buffer.
    pub fn pool(&self) -> &BufferPool
        ensures value { result.now ≡ self.now.pool }
        ensures home { IsHome self.now }
    {
        &self.parts.pool
    }
}
