//! Laws of a step of a cluster.

ghost use Rattle.cluster_laws.specs.Link.StepLaws.{SizesStay, LinksOfMade, NodesStep, LinksStep, ComingSteps, MessagesComeFrom, SentAreOfEpoch, EpochsGoOn};
ghost use Rattle.cluster_laws.specs.Link.EpochLaws.{OpeningIsInOrder, StepsKeepOrder};

/// A step keeps the sizes of the cluster.
pub fn sizes_stay()
    ensures { SizesStay }
{}

/// After a step that is made whole each link has what it had, without a head that was taken, and then what the
/// node sends on it.
pub fn links_of_made()
    ensures { LinksOfMade }
{}

/// Through a step a node stays as it is, takes its step, is lost, or starts.
pub fn nodes_step()
    ensures { NodesStep }
{}

/// Through a step a link stays as it is, gets what its sender sends, loses its head to its receiver, or is
/// cleared, as its receiver is lost.
pub fn links_step()
    ensures { LinksStep }
{}

/// Through a step the messages of a page that come on a link are those of before that still count, in their
/// order; or there are further ones behind them; or the first of them may be taken.
pub fn coming_steps()
    ensures { ComingSteps }
{}

/// Each message on a link after a step was there before, or its sender sends it in the step.
pub fn messages_come_from()
    ensures { MessagesComeFrom }
{}

/// What a node sends to another may go on the link between them, and is of the epoch that the node is at then.
pub fn sent_are_of_epoch()
    ensures { SentAreOfEpoch }
{}

/// A node keeps its epoch and its view through its step, or its epoch rises.
pub fn epochs_go_on()
    ensures { EpochsGoOn }
{}

/// In the opening cluster no message is on a link, so all are in order.
pub fn opening_is_in_order()
    ensures { OpeningIsInOrder }
{}

/// A step on any event keeps the order of links: no epoch falls along a link, and none is above that of a
/// sender which is up.
pub fn steps_keep_order()
    ensures { StepsKeepOrder }
{}
