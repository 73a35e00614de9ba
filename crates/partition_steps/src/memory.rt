ghost use Rattle.std.specs.Prelude.{◌≡◌, ◌≤◌, ◌+◌, IfOk, OnOk};
ghost use Rattle.home.specs.Moves.{Lists};
ghost use Rattle.node_parts.specs.State.{AreParts};
ghost use Rattle.partition_steps.specs.Memory.{HasMemoryFor};

use crate::needs::{Needs, sum};
use home::MoveList;
use node_parts::{Outputs, Parts, Stock};
use pcl_base::NoMemory;

/// The memory with which plans are carried out. It is taken before the first change of a step, for all of
/// the step's plans.
#[derive(Drop)]
pub struct Memory {
    /// What the moves of partitions need.
    pub list: MoveList,
    /// The memory for the images of grants.
    pub stock: Stock,
}

/// Takes the memory that plans need, and room for so many replies more. Nothing changes, also where there
/// is `NoMemory`.
pub fn take_memory(
    parts: &Parts,
    needs: Needs,
    further: usize,
    out: &mut Outputs,
) -> Result<Memory, NoMemory>
    ensures list { IfOk result (λ m. Lists m.list parts.now.home) }
    ensures memory { IfOk result (λ m. HasMemoryFor needs m.stock out.new) }
    ensures size { IfOk result (λ m. m.stock.size ≡ parts.now.home.config.size) }
    ensures further { OnOk result (needs.replies + further ≤ out.new.reply_room) }
    ensures replies { out.new.replies ≡ out.old.replies }
    ensures sends { out.new.sends ≡ out.old.sends }
{
    let list = parts.home.move_list()?;
    let size = parts.home.config().size() as usize;
    let stock = Stock::open(parts.alloc, size, needs.images)?;
    let replies = sum(needs.replies, further)?;
    out.reserve(replies, needs.sends)?;
    Ok(Memory { list, stock })
}
