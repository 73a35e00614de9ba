//! The laws of what begins and ends at a home, each as the clause of an empty function.

ghost use Rattle.home_laws.specs.EndLaws.{BeginIsSound, AbortIsSound, CommitIsSound, RecordIsSound, WriteBackIsSound, EvictIsSound, CleanIsSound, PutChangeIsSound, TakeOverIsSound, GiveUpIsSound, BornAtIsSound};

/// A transaction that begins leaves a sound home.
pub fn begin_is_sound()
    ensures { BeginIsSound }
{}

/// A transaction that is given up leaves a sound home.
pub fn abort_is_sound()
    ensures { AbortIsSound }
{}

/// A transaction that is committed leaves a sound home.
pub fn commit_is_sound()
    ensures { CommitIsSound }
{}

/// The record of a commit that wrote is one that has bytes.
pub fn record_is_sound()
    ensures { RecordIsSound }
{}

/// A dirty copy that is written and stays leaves a sound home.
pub fn write_back_is_sound()
    ensures { WriteBackIsSound }
{}

/// A copy without a pin that is written where it is dirty, and leaves, leaves a sound home.
pub fn evict_is_sound()
    ensures { EvictIsSound }
{}

/// A copy that becomes clean leaves a sound home.
pub fn clean_is_sound()
    ensures { CleanIsSound }
{}

/// A change of a page of the database, with an image of its size, that goes into the buffer or to
/// disk leaves a sound home.
pub fn put_change_is_sound()
    ensures { PutChangeIsSound }
{}

/// A partition that the node gets leaves a sound home.
pub fn take_over_is_sound()
    ensures { TakeOverIsSound }
{}

/// A partition that the node gives up leaves a sound home.
pub fn give_up_is_sound()
    ensures { GiveUpIsSound }
{}

/// The birth of a node at which no transaction is open leaves a sound home.
pub fn born_at_is_sound()
    ensures { BornAtIsSound }
{}
