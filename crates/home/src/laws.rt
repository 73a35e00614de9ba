//! The laws of changing calls that are made, each as the clause of an empty function.

ghost use Rattle.home.specs.CallLaws.{CallsJoin, NoneFollows, UnstoppedAreDone, ArmedAreDone, ArmedAreStopped, DoneAreAll, FailedAreStopped};

/// Changing calls that are made after others are made as one list with them, and none is made after
/// one that failed.
pub fn calls_join()
    ensures made { CallsJoin }
    ensures failed { NoneFollows }
{}

/// Where the node has no armed stop, its changing calls are all done, and the stops stay.
pub fn unstopped_calls_are_done()
    ensures { UnstoppedAreDone }
{}

/// Where the node has an armed stop, that alone decides: its changing calls are all done where the
/// stop is behind them, which is nearer then by their number; else one of them failed, and pages and
/// logs are left as the rules of devices say of this stop.
pub fn an_armed_stop_decides()
    ensures done { ArmedAreDone }
    ensures stopped { ArmedAreStopped }
{}

/// Whatever is told of stops, changing calls that are all done leave the disk that the rules of devices
/// say, and those of which one failed leave what some stop would leave.
pub fn calls_leave_what_the_rules_say()
    ensures done { DoneAreAll }
    ensures failed { FailedAreStopped }
{}
