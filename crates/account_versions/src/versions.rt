//! Laws of versions.

ghost use Rattle.account_versions.specs.Versions.{ClustersHaveVersions, RunsHaveVersions, StepsKeepVersions, VersionsAreNow};

/// The ledger of a trace in which each granted write was asked for has the versions of now.
pub fn versions_are_now()
    ensures { VersionsAreNow }
{}

/// So has the ledger of a cluster's trace.
pub fn clusters_have_versions()
    ensures { ClustersHaveVersions }
{}

/// So has that of the cluster to which a step comes.
pub fn steps_keep_versions()
    ensures { StepsKeepVersions }
{}

/// So has the ledger of every cluster of every run, where its trace leaves one.
pub fn runs_have_versions()
    ensures { RunsHaveVersions }
{}
