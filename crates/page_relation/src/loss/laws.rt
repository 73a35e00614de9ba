//! Laws of losses.

ghost use Rattle.page_relation.specs.Loss.Laws.{
  ArmedIsRelated,
  CrashedIsRelated,
  DifferingIsRelated,
  HaltedIsRelated,
  OrdinaryHaltsAreRelated,
  QuietEventsKeepRelated,
  RefusedIsRelated,
  ReopenedIsRelated,
  StepsWriteVersions,
  ViewedIsRelated,
};

/// A refused event leaves the state of each page.
pub fn refused_is_related()
    ensures { RefusedIsRelated }
{}

/// So does a stop that is armed.
pub fn armed_is_related()
    ensures { ArmedIsRelated }
{}

/// A node that crashes is a crash of the machine of one page, before which the authority falls where it was the
/// node's: each message, table and home of the others still agrees with the state that the machine comes to.
pub fn crashed_is_related()
    ensures { CrashedIsRelated }
{}

/// A view leaves the state of each page. The nodes that it starts are as those that are down.
pub fn viewed_is_related()
    ensures { ViewedIsRelated }
{}

/// A reopening does so too.
pub fn reopened_is_related()
    ensures { ReopenedIsRelated }
{}

/// A cluster with all that is to hold in a run has it after a refused event, an armed stop, a crash, a view and a
/// reopening.
pub fn quiet_events_keep_related()
    ensures { QuietEventsKeepRelated }
{}

/// So it has after a step that a stop ended. A record that was kept whole is the machine's commit at each page; then
/// the node is lost, and what else the stop left of the step's calls on the storage are writes of a page's versions and
/// a cut. What the step may write of a page is asked of its calls (`WriteVersions`), and what is needed of scripts and
/// serials of the cluster (`ScriptsFit`).
pub fn halted_is_related()
    ensures { HaltedIsRelated }
{}

/// And after a step that met a page with another number on disk, which loses the node.
pub fn differing_is_related()
    ensures { DifferingIsRelated }
{}

/// What that asks of its calls a step gives that redoes no page, on any event but an install and a report: it writes
/// its dirty copies, and a change that it takes, which are versions of their pages.
pub fn steps_write_versions()
    ensures { StepsWriteVersions }
{}

/// So a stop in such a step keeps a cluster related.
pub fn ordinary_halts_are_related()
    ensures { OrdinaryHaltsAreRelated }
{}
