//! The laws, each as the clause of an empty function.

ghost use Rattle.step_laws.specs.Most.{RepliesAtMost, SendsAtMost, ItemsAtMost, TogetherAtMost, TogetherIsReached, ListedAtMost, ReadersAreNeeded, ReadersAreFew};

/// A step's replies are at most two for each node and two more, what waits, the rights, the locks, and
/// the items that the event brings.
pub fn replies_at_most()
    ensures { RepliesAtMost }
{}

/// A step's sends are at most that.
pub fn sends_at_most()
    ensures { SendsAtMost }
{}

/// The items in all lists of a step's sends are at most that, where no right on the shelf has more
/// readers than there are locks.
pub fn items_at_most()
    ensures { ItemsAtMost }
{}

/// Replies and sends together are at most that, with one for each node and one more.
pub fn together_at_most()
    ensures { TogetherAtMost }
{}

/// One of two nodes can give that much: where it comes into a view in which it owns both partitions.
pub fn together_is_reached()
    ensures { TogetherIsReached }
{}

/// The items in all lists of a step's sends are at most the accesses that wait, the locks, and the
/// rights on the shelf, where no right has more readers than there are locks.
pub fn listed_at_most()
    ensures { ListedAtMost }
{}

/// A node in which a right has more readers than there are locks can list more.
pub fn readers_are_needed()
    ensures { ReadersAreNeeded }
{}

/// No right has more readers than there are locks where its readers are different transactions, and
/// each of them holds a lock.
pub fn readers_are_few()
    ensures { ReadersAreFew }
{}
