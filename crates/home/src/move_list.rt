use pcl_base::{PageNo, TxId, Version};
use std::marker::Model;

/// What the moves of partitions need: the names of the open transactions and the rights. A step takes
/// it before its first change, so that its moves take no memory.
#[derive(Drop)]
pub struct MoveList {
    pub(crate) names: Vec<TxId>,
    pub(crate) rights: Vec<(PageNo, Version)>,
}

impl Model for MoveList {
    ghost use Rattle.std.specs.Prelude.{map};
    ghost use Rattle.home.specs.Moves.{MoveListView};

    ghost Value = { MoveListView };

    ghost view = { λ l. record { names = l.names.items; pages = map (λ r. r.0) l.rights.items } };
}
