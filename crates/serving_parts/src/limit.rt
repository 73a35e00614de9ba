ghost use Rattle.std.specs.Prelude.{ℕ, zero};
ghost use Rattle.node_rules.specs.NodeState.{NodeState};
ghost use Rattle.serving_parts.specs.Sides.{Store, outs_of, sides_of};
ghost use Rattle.serving_parts.specs.Turns.{Ran};

use crate::end::End;
use crate::writes::write_last;
use node_frames::{encode_long, has_more};
use pcl_base::{Sink, Source};
use std::alloc::Global;

/// The end where no frame more may be read: it is one too many where a further byte comes, the first of the
/// frame of this number.
pub fn end_at_limit<I: Source, O: Sink>(
    alloc: Global,
    number: u64,
    input: &mut I,
    output: &mut O,
) -> End
    ensures { (me : ℕ) (n : NodeState) (store : Store) → Ran (record { me = me; node = n; most = zero; number = number }) (sides_of (I.left input.old) (I.faults input.old) (outs_of (O.written output.old) (O.faults output.old) store)) (sides_of (I.left input.new) (I.faults input.new) (outs_of (O.written output.new) (O.faults output.new) store)) result }
{
    match has_more(input) {
        Err(_) => End::Source,
        Ok(false) => End::Decided { status: 0 },
        Ok(true) => {
            let made = encode_long(alloc, number);
            write_last(made, 7, output)
        }
    }
}
