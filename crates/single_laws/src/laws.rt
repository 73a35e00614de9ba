//! The laws, each as the clause of an empty function. They speak of a cluster of one node, after any
//! events but crashes, views and armed stops, with at most one transaction open in each of its clusters;
//! refused events, evictions, flushes and cuts of the log are among them.

ghost use Rattle.single_laws.specs.Alone.{AloneIsFresh, AloneIsSerial, AloneIsAccounted, AloneIsSafe};

/// Where one node has at most one open transaction at a time, each granted access finds its page as
/// the transactions committed so far and its own earlier writes leave it.
pub fn alone_is_fresh()
    ensures { AloneIsFresh }
{}

/// Where one node has at most one open transaction at a time, the committed transactions are as if
/// they had run one after the other, in commit order.
pub fn alone_is_serial()
    ensures { AloneIsSerial }
{}

/// Where one node has at most one open transaction at a time, each message has its cause: there is none.
pub fn alone_is_accounted()
    ensures { AloneIsAccounted }
{}

/// Where one node has at most one open transaction at a time, the cluster is safe: fresh, serial and
/// accounted for, and redo of its disk gives what the committed transactions made.
pub fn alone_is_safe()
    ensures { AloneIsSafe }
{}
