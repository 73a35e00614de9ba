//! Laws of whole logs.

ghost use Rattle.cluster_laws.specs.Call.CallLaws.{OpeningHasWholeLogs, StepsKeepWholeLogs};

/// In the opening cluster all logs are whole, as none has a record.
pub fn opening_has_whole_logs()
    ensures { OpeningHasWholeLogs }
{}

/// A step on any event keeps the logs of all nodes in a view whole, where the record of a commit has numbers
/// of their types. A torn rest is left by a stop alone, and its node trims it when it begins its life.
pub fn steps_keep_whole_logs()
    ensures { StepsKeepWholeLogs }
{}
