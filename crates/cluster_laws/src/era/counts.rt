//! Laws of messages that count.

ghost use Rattle.cluster_laws.specs.Era.CountLaws.{CountingIsOfView, CountingIsOfLife, CountedBefore, CountedUnborn, CountsStay, NothingCountsAtStart, StepsCountLess};

/// A message that counts at a node in a view, and isn't held there, was sent in the era that its partition has
/// in that view, and sender and receiver lived their lives of that view then.
pub fn counting_is_of_view()
    ensures { CountingIsOfView }
{}

/// A message that counts is of its receiver's life, held or not, and where the receiver is in no view too.
pub fn counting_is_of_life()
    ensures { CountingIsOfLife }
{}

/// A message that counts at a view counted at each earlier one.
pub fn counted_before()
    ensures { CountedBefore }
{}

/// A message that counts at any view of a node counted while the node was in none.
pub fn counted_unborn()
    ensures { CountedUnborn }
{}

/// Where a node keeps its number, its epoch and its view, the same messages count.
pub fn counts_stay()
    ensures { CountsStay }
{}

/// At a node that starts no message counts that was sent before.
pub fn nothing_counts_at_start()
    ensures { NothingCountsAtStart }
{}

/// Through a step on any event no message comes to count that didn't.
pub fn steps_count_less()
    ensures { StepsCountLess }
{}
