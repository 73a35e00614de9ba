//! Laws of changes of links.

ghost use Rattle.cluster_laws.specs.Link.LinkLaws.{LinksAreSquare, SquaresStay, EmptyLinks, PutOnLinks, TakenFromLinks, ClearedLinks, SentOnLinks, HeadsAfter};

/// The links of a cluster are one for each pair of its nodes.
pub fn links_are_square()
    ensures { LinksAreSquare }
{}

/// They stay so through each change.
pub fn squares_stay()
    ensures { SquaresStay }
{}

/// Where no message was sent each link is empty.
pub fn empty_links()
    ensures { EmptyLinks }
{}

/// Other messages on a link are there, and the other links are as before.
pub fn put_on_links()
    ensures { PutOnLinks }
{}

/// A link whose head is taken has the messages behind it, and the other links are as before.
pub fn taken_from_links()
    ensures { TakenFromLinks }
{}

/// The links into a node that is lost are empty, and the others are as before.
pub fn cleared_links()
    ensures { ClearedLinks }
{}

/// What a node sends goes last on the links to those that are up, in its order, and nothing else changes.
pub fn sent_on_links()
    ensures { SentOnLinks }
{}

/// After a node's event the head that was delivered is gone, unless it was held or refused.
pub fn heads_after()
    ensures { HeadsAfter }
{}
