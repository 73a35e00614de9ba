//! Laws of related clusters.

ghost use Rattle.related_runs.specs.RelatedLaws.{RelatedIsSerial, RelatedIsDurable, RelatedStaysFresh};

/// The commits of a related cluster are serial: run one after another, none meets a read that differs.
pub fn related_is_serial()
    ensures { RelatedIsSerial }
{}

/// The storage of a related cluster is durable: redo of the stored pages and logs gives each page as the
/// commits have made it.
pub fn related_is_durable()
    ensures { RelatedIsDurable }
{}

/// A step that leaves a related cluster keeps its trace fresh: each access that it granted finds its page as the
/// transactions committed so far and its own earlier writes leave it.
pub fn related_stays_fresh()
    ensures { RelatedStaysFresh }
{}
