ghost use Rattle.std.specs.Prelude.{◌≡◌, None, replicate};
ghost use Rattle.node_parts.specs.State.{AreParts};
ghost use Rattle.partition_steps.specs.Carried.{AreTurning};

use node_parts::{Parts, Tables};

/// The node is in no view and has no table: so holds what holds of every node, where one may only be lost.
/// It takes no memory.
pub(crate) fn leave(parts: &mut Parts, none: Tables)
    requires turning { AreTurning parts.old }
    requires none { none ≡ record { config = parts.old.home.config; places = replicate parts.old.home.config.nodes None } }
    ensures parts { AreParts parts.new }
    ensures me { parts.new.me ≡ parts.old.me }
    ensures home { parts.new.home ≡ parts.old.home }
{
    parts.view = None;
    parts.tables = none;
}
