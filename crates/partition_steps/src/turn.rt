ghost use Rattle.std.specs.Prelude.{◌≡◌, ◌≢◌, ◌<◌, [], slice_index_or, slice_set, None};
ghost use Rattle.install_laws.specs.InstallPlans.{turned};
ghost use Rattle.home.specs.Moves.{Lists};
ghost use Rattle.install_plans.specs.Plans.{IsAfter, table_after, turnover_of};
ghost use Rattle.node_parts.specs.Tables.{AreTidyBut, lock_tables, place_at};
ghost use Rattle.page_owner.specs.Carry.{SameNode};
ghost use Rattle.partition_steps.specs.Carried.{place_after};

use home::{Home, MoveList};
use install_plans::{TableAfter, Turnover};
use node_parts::Tables;
use pcl_base::NodeNo;

// A partition at home and among the tables.

/// What the home has of a partition is turned over. It takes no memory.
pub(crate) fn turn(home: &mut Home, turnover: Turnover, list: &MoveList, q: NodeNo)
    requires listed { Lists list.now home.old }
    ensures home { home.new ≡ turned (turnover_of turnover) q home.old }
    ensures listed { Lists list.now home.new }
    ensures same { SameNode home.old home.new }
{
    match turnover {
        Turnover::Stays => return,
        Turnover::Taken => home.take_over(list, q),
        Turnover::Left => home.give_up(list, q),
    }
}

/// The planned table takes the place of that of a partition. It takes no memory.
pub(crate) fn put_after(tables: &mut Tables, q: NodeNo, table: TableAfter)
    requires q { q < tables.old.config.nodes }
    requires table { IsAfter tables.old.config q table }
    requires tidy { AreTidyBut [] tables.old }
    ensures places { tables.new ≡ record tables.old { places = slice_set tables.old.places q (place_after table (place_at tables.old.places q)) } }
    ensures tables { lock_tables tables.new.places ≡ slice_set (lock_tables tables.old.places) q (table_after table (slice_index_or (lock_tables tables.old.places) q None)) }
    ensures tidy { AreTidyBut [] tables.new }
{
    match table {
        TableAfter::AsBefore => return,
        TableAfter::Is(table) => tables.put_table(q, Some(table)),
        TableAfter::Gone => tables.put_table(q, None),
    }
}
