ghost use Rattle.std.specs.Prelude.{◌≡◌, ◌<◌, IfOk};
ghost use Rattle.node_rules.specs.NodeState.{first_node, start_node};
ghost use Rattle.node_parts.specs.State.{AreParts, node_of};

use crate::tables::Tables;
use authority_map::View;
use home::Home;
use lock_table::Table;
use pcl_base::{Config, NoMemory, NodeNo};
use std::alloc::Global;
use std::marker::Model;

/// The parts of a node. What holds of every node needn't hold of the parts while a step is made.
pub struct Parts {
    /// Where its memory comes from.
    pub alloc: Global,
    /// The node.
    pub me: NodeNo,
    /// The home of its transactions.
    pub home: Home,
    /// The epoch, which is that of the view where there is one.
    pub epoch: u32,
    /// The view that it installed last, if it has installed one since it started.
    pub view: Option<View>,
    /// The lock tables of the partitions that it owns in this view.
    pub tables: Tables,
}

impl Model for Parts {
    ghost use Rattle.node_parts.specs.State.{PartsView};

    ghost Value = { PartsView };

    ghost view = { λ p. record { me = p.me; home = p.home; epoch = p.epoch; view = p.view; tables = p.tables } };
}

impl Parts {
    /// The parts of a node at view 1.
    pub fn first(alloc: Global, config: &Config, me: NodeNo) -> Result<Parts, NoMemory>
        requires { me < config.now.nodes }
        ensures node { IfOk result (λ p. node_of p ≡ first_node config.now me) }
        ensures sound { IfOk result (λ p. AreParts p) }
    {
        let view = View::first(alloc, config)?;
        let table = Table::open(alloc, config, me, true)?;
        let mut tables = Tables::open(alloc, config)?;
        tables.put_table(me, Some(table));
        Ok(Parts {
            alloc,
            me,
            home: Home::open(alloc, config, me, 1)?,
            epoch: 1,
            view: Some(view),
            tables,
        })
    }

    /// The parts of a node in no view.
    pub fn start(alloc: Global, config: &Config, me: NodeNo, epoch: u32) -> Result<Parts, NoMemory>
        requires { me < config.now.nodes }
        ensures node { IfOk result (λ p. node_of p ≡ start_node config.now me epoch) }
        ensures sound { IfOk result (λ p. AreParts p) }
    {
        let tables = Tables::open(alloc, config)?;
        Ok(Parts {
            alloc,
            me,
            home: Home::open(alloc, config, me, epoch)?,
            epoch,
            view: None,
            tables,
        })
    }

    /// Ends the rights, gives the frames back and lets the memory go.
    pub fn close(self) {
        let Parts {
            alloc: _alloc,
            me: _me,
            home,
            epoch: _epoch,
            view: _view,
            tables: _tables,
        } = self;
        home.close();
    }
}
