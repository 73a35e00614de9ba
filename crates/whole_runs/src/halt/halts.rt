//! Laws of stops.

ghost use Rattle.whole_runs.specs.Halt.Stops.{
  AllHaltsAreRelated,
  AllStopsAreRelated,
  AllStopsLeavePages,
  AllWriteVersions,
  InstallsWriteVersions,
  ReportsWriteVersions,
};

/// A step on a report that arrives writes only versions of pages, which it redoes where the report was the last one missing.
pub fn reports_write_versions()
    ensures { ReportsWriteVersions }
{}

/// So does a step on an install, which redoes pages of the partitions that the node gets or keeps.
pub fn installs_write_versions()
    ensures { InstallsWriteVersions }
{}

/// So does every step.
pub fn all_write_versions()
    ensures { AllWriteVersions }
{}

/// A stop in any step keeps a cluster related.
pub fn all_halts_are_related()
    ensures { AllHaltsAreRelated }
{}

/// So it leaves the pages of a cluster of a run related.
pub fn all_stops_are_related()
    ensures { AllStopsAreRelated }
{}

/// They are as between two events then.
pub fn all_stops_leave_pages()
    ensures { AllStopsLeavePages }
{}
