//! The laws, each as the clause of an empty function.

ghost use Rattle.node_laws.specs.Laws.{FirstIsSound, StartIsSound, StepsKeepSound, StepsKeepNumbers, SendsAreMessages, SendsHaveEpoch, CallsFit, SoundHasFewReaders, OpenAreTxs, FreshFits, CallsKeepDisk, StopsKeepDisk};

/// A node at view 1 is sound.
pub fn first_is_sound()
    ensures { FirstIsSound }
{}

/// A node in no view, at an epoch of at least 1, is sound.
pub fn start_is_sound()
    ensures { StartIsSound }
{}

/// A step of a sound node leaves a sound node, whatever the event: a call of its transactions, a
/// message of the grammar from another node, or a view in which the node is live.
pub fn steps_keep_sound()
    ensures { StepsKeepSound }
{}

/// A step keeps the sizes of the cluster and the node's number.
pub fn steps_keep_numbers()
    ensures { StepsKeepNumbers }
{}

/// What a step sends are messages of the grammar, to other nodes of the cluster.
pub fn sends_are_messages()
    ensures { SendsAreMessages }
{}

/// What a step sends has the epoch at which the node is after it.
pub fn sends_have_epoch()
    ensures { SendsHaveEpoch }
{}

/// What a step writes are pages of the database, of their size.
pub fn calls_fit()
    ensures { CallsFit }
{}

/// No right of a sound node has more readers than there are locks.
pub fn sound_has_few_readers()
    ensures { SoundHasFewReaders }
{}

/// An open transaction of a sound node has a name that may be: of a node of the cluster, with a birth
/// and a serial of at least 1.
pub fn open_are_txs()
    ensures { OpenAreTxs }
{}

/// Fresh storage is a disk of its cluster.
pub fn fresh_fits()
    ensures { FreshFits }
{}

/// A disk keeps its pages and logs through calls that write pages of the database.
pub fn calls_keep_disk()
    ensures { CallsKeepDisk }
{}

/// It keeps them too where a stop breaks off within such calls.
pub fn stops_keep_disk()
    ensures { StopsKeepDisk }
{}
