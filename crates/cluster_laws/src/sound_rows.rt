//! Rows of parts of clusters that no run comes to.

ghost use Rattle.cluster_laws.specs.SoundRows.{NoMessageIsAhead, NoMessageToItself, NoViewTwice, NoNodeIsDropped, NoNodeStartsAlone, NoNodeElsewhere};

/// No message is of an epoch without a view.
pub fn no_message_is_ahead()
    ensures { NoMessageIsAhead }
{}

/// No message is on a link from a node to itself.
pub fn no_message_to_itself()
    ensures { NoMessageToItself }
{}

/// No view is made twice.
pub fn no_view_twice()
    ensures { NoViewTwice }
{}

/// No node is up while a later view drops it.
pub fn no_node_is_dropped()
    ensures { NoNodeIsDropped }
{}

/// No node starts without a view to begin with.
pub fn no_node_starts_alone()
    ensures { NoNodeStartsAlone }
{}

/// No node is up at the place of another one.
pub fn no_node_elsewhere()
    ensures { NoNodeElsewhere }
{}
