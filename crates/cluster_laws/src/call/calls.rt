//! Laws of the calls of a step.

ghost use Rattle.cluster_laws.specs.Call.CallLaws.{StepsBeginWithLogs, WritesKeepLogs, CallsKeepOtherLogs, CallsChangeLog, StopsKeepOtherLogs};

/// The calls of a step are the one on its node's log, if it makes one, and then page writes: a commit with
/// writes forces its record, the install of the view of the node's birth trims a torn rest, and a cut cuts.
pub fn steps_begin_with_logs()
    ensures { StepsBeginWithLogs }
{}

/// Page writes leave all logs.
pub fn writes_keep_logs()
    ensures { WritesKeepLogs }
{}

/// The calls of a node leave the logs of others.
pub fn calls_keep_other_logs()
    ensures { CallsKeepOtherLogs }
{}

/// The node's own log changes by each of its calls in turn.
pub fn calls_change_log()
    ensures { CallsChangeLog }
{}

/// So a stop within a step leaves the logs of other nodes.
pub fn stops_keep_other_logs()
    ensures { StopsKeepOtherLogs }
{}
