//! Laws of commits from a cluster of a run.

ghost use Rattle.account_commits.specs.Commits.{CommitsHaveVersions, WrittenIsDone};

/// The ledger has a granted write of each page that the transaction wrote.
pub fn written_is_done()
    ensures { WrittenIsDone }
{}

/// The version that a commit makes of a page which its transaction wrote is the ledger's after the commit point.
pub fn commits_have_versions()
    ensures { CommitsHaveVersions }
{}
