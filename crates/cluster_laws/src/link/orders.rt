//! Laws of the order of messages, and of those that pass a test.

ghost use Rattle.cluster_laws.specs.Link.Orders.{OrderedFromLower, OrderedAtTheEnd, OrderedWithoutHead, OrderedAmongSome, NumbersAtTheEnd, NumbersWithHead, NumbersAmongSome, SomeAtTheEnd, SomeWithoutHead, SomeOfFewer, SomeOfTheSame};

/// Ordered messages are ordered above each lower bound.
pub fn ordered_from_lower()
    ensures { OrderedFromLower }
{}

/// Further messages keep the order, where they are ordered above the last one.
pub fn ordered_at_the_end()
    ensures { OrderedAtTheEnd }
{}

/// Messages stay ordered without their head.
pub fn ordered_without_head()
    ensures { OrderedWithoutHead }
{}

/// Messages that pass a test are ordered as all are.
pub fn ordered_among_some()
    ensures { OrderedAmongSome }
{}

/// How many of a kind there are once further messages are behind.
pub fn numbers_at_the_end()
    ensures { NumbersAtTheEnd }
{}

/// How many of a kind there are with a head.
pub fn numbers_with_head()
    ensures { NumbersWithHead }
{}

/// Among those that pass a test there aren't more of a kind.
pub fn numbers_among_some()
    ensures { NumbersAmongSome }
{}

/// Those that pass a test, once further messages are behind.
pub fn some_at_the_end()
    ensures { SomeAtTheEnd }
{}

/// Those that pass a test, once the head is gone.
pub fn some_without_head()
    ensures { SomeWithoutHead }
{}

/// Those that pass a narrower test are among those that pass the wider one, in their order.
pub fn some_of_fewer()
    ensures { SomeOfFewer }
{}

/// Tests that say the same of all messages leave the same ones.
pub fn some_of_the_same()
    ensures { SomeOfTheSame }
{}
