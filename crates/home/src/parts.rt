ghost use Rattle.std.specs.Prelude.{◌≡◌, ◌≤◌, ◌<◌, IfOk, OnOk, OnErr};
ghost use Rattle.pcl_base.specs.Limits.{InLimits};
ghost use Rattle.node_rules.specs.NodeState.{open_home};

use crate::written::WrittenPlaces;
use buffer_pool::BufferPool;
use pcl_base::{Config, NoMemory, NodeNo};
use read_right::Shelf;
use std::alloc::Global;
use std::marker::Model;
use tx_table::TxTable;

/// The parts of a home, and the memory that is kept for later grants. What holds of every home needn't
/// hold of the parts while a call is at work on them.
pub(crate) struct Parts {
    pub(crate) alloc: Global,
    pub(crate) config: Config,
    /// The node.
    pub(crate) me: NodeNo,
    pub(crate) txs: TxTable,
    pub(crate) shelf: Shelf,
    pub(crate) pool: BufferPool,
    pub(crate) written: WrittenPlaces,
    /// A stored page, for reads and writes.
    pub(crate) raw: Vec<u8>,
    /// Empty lists with room for a page, one for the reply of each access that waits.
    pub(crate) replies: Vec<Vec<u8>>,
}

impl Model for Parts {
    ghost use Rattle.std.specs.Prelude.{◌≡◌, ◌<◌, length};
    ghost use Rattle.home.specs.Parts.{PartsView, parts_of, HasPages};

    ghost Value = { PartsView };

    ghost view = { λ h. parts_of h.config h.me h.txs h.shelf h.pool h.written (length h.replies.items) };

    ghost invariant = { λ h. HasPages h.config.size (length h.raw.items) h.replies.items × (h.me < h.config.nodes) };
}

impl Parts {
    /// The parts of a home where nothing was begun.
    pub(crate) fn open(
        alloc: Global,
        config: &Config,
        me: NodeNo,
        born: u32,
    ) -> Result<Parts, NoMemory>
        requires { me < config.now.nodes }
        ensures home { IfOk result (λ h. (h.home ≡ open_home config.now me born) × (h.node ≡ me)) }
        ensures limits { InLimits config.now }
    {
        let raw = vec![in alloc; 0u8; config.size() as usize + 16]?;
        let pool = BufferPool::open(alloc, config.frames(), config.size())?;
        Ok(Parts {
            alloc,
            config: *config,
            me,
            txs: TxTable::open(alloc, me, born, 1),
            shelf: Shelf::open(alloc),
            pool,
            written: WrittenPlaces::open(alloc),
            raw,
            replies: Vec::new(alloc),
        })
    }

    /// Ends the rights, gives the frames back and lets the memory go.
    pub(crate) fn close(self) {
        let Parts {
            alloc: _alloc,
            config: _config,
            me: _me,
            txs: _txs,
            shelf,
            pool,
            written: _written,
            raw: _raw,
            replies: _replies,
        } = self;
        shelf.forfeit_all();
        pool.close();
    }
}
