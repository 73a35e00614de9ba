//! Laws of the parties of messages.

ghost use Rattle.related_runs.specs.Parties.{OpeningHasLiving, StepsKeepParties};

/// In the opening cluster no transaction waits in a table.
pub fn opening_has_living()
    ensures { OpeningHasLiving }
{}

/// Through a step each message has its parties: requests, releases, answers and reports go to the owner of their
/// page in the view of their epoch, grants and revocations come from it, and the transactions that they name are
/// of their homes' lives there. And in the tables of each node transactions of live nodes alone wait.
pub fn steps_keep_parties()
    ensures { StepsKeepParties }
{}
