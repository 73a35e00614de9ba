//! What goes with nodes that aren't live any more.
ghost use Rattle.std.specs.Prelude.{◌≡◌, ℕ, OnOk, IsSome, is_some};
ghost use Rattle.node_rules.specs.InstallRule.{purge_table};
ghost use Rattle.node_rules.specs.LockRule.{purge};
ghost use Rattle.lock_table.specs.Tables.{IsPageOf, SamePlace, found, entry_of, table_of, with_entry};
ghost use Rattle.rebuild.specs.Parts.{IsTableOf, is_page};

use lock_table::Table;
use pcl_base::{Config, NoMemory, PageNo};

/// Takes the holders, rights and waiting accesses of nodes that aren't live out of all entries. It
/// carries the install rule, kept partitions. `live` has a flag for each node; a node without one
/// isn't live. An entry that is left empty stays, and none is made.
///
/// The table is of this configuration. After `NoMemory` the table may only be given up.
pub fn purge(t: &mut Table, config: &Config, live: &[bool]) -> Result<(), NoMemory>
    requires { IsTableOf config.now t.old }
    ensures purged { OnOk result (table_of t.new ≡ purge_table live.now (table_of t.old)) }
    ensures made { OnOk result ((p : ℕ) → is_some (found t.new p) ≡ is_some (found t.old p)) }
    ensures place { OnOk result (SamePlace t.old t.new) }
{
    let pages = t.pages()?;
    for page in pages.as_slice() {
        if is_page_of(t, config, *page) {
            purge_page(t, *page, live)?;
        }
    }
    Ok(())
}

/// Whether a page is one of the table's.
fn is_page_of(t: &Table, config: &Config, page: PageNo) -> bool
    ensures { result ≡ is_page config.now t.now.partition page }
{
    page < config.pages() && page % config.nodes() == t.partition() as u32
}

/// Purges the entry of a page that has one.
fn purge_page(t: &mut Table, page: PageNo, live: &[bool]) -> Result<(), NoMemory>
    requires page { IsPageOf t.old page }
    requires there { IsSome (found t.old page) }
    ensures { OnOk result (t.new ≡ with_entry t.old page (purge (entry_of t.old page) live.now)) }
{
    t.entry(page)?.purge(live);
    Ok(())
}
