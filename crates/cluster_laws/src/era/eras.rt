//! Laws of eras and lives.

ghost use Rattle.cluster_laws.specs.Era.EraLaws.{EpochsHaveViews, LastViewIsThere, NoFurtherViews, StepsKeepMade, StepsKeepEras, LaterEpochs, NextGoesOn, ErasNeverFall, BirthsNeverFall, ErasAreReached, BirthsAreReached, ErasHaveOneOwner, ErasGoOn, LivesGoOn, OwnersAreLive, OwnersWereBorn, MembersKnowEras, UpNodesLive};

/// Each epoch from 1 up to the last one has its view, which is whole.
pub fn epochs_have_views()
    ensures { EpochsHaveViews }
{}

/// The view of the last epoch is the one that was made last.
pub fn last_view_is_there()
    ensures { LastViewIsThere }
{}

/// No other epoch has a view.
pub fn no_further_views()
    ensures { NoFurtherViews }
{}

/// A step on any event leaves the views that were made.
pub fn steps_keep_made()
    ensures { StepsKeepMade }
{}

/// So a step leaves the eras, owners, births and lives of the epochs up to the last one.
pub fn steps_keep_eras()
    ensures { StepsKeepEras }
{}

/// The view of a later epoch is one that comes after that of an earlier epoch.
pub fn later_epochs()
    ensures { LaterEpochs }
{}

/// Of two views in a row, each partition goes on with its owner, who lives on, or is of the new era; and each
/// node goes on with its birth, and isn't live anew, or is born.
pub fn next_goes_on()
    ensures { NextGoesOn }
{}

/// The era of a partition never falls with the epoch.
pub fn eras_never_fall()
    ensures { ErasNeverFall }
{}

/// The birth of a node never falls with the epoch.
pub fn births_never_fall()
    ensures { BirthsNeverFall }
{}

/// No era is above the epoch whose view has it.
pub fn eras_are_reached()
    ensures { ErasAreReached }
{}

/// No birth is above the epoch whose view has it.
pub fn births_are_reached()
    ensures { BirthsAreReached }
{}

/// Between two epochs of one era a partition has the same owner.
pub fn eras_have_one_owner()
    ensures { ErasHaveOneOwner }
{}

/// From the epoch that an era is called by, up to any epoch of that era, all are of it.
pub fn eras_go_on()
    ensures { ErasGoOn }
{}

/// A node that is live in the view of an epoch was so, with the same birth, in each from its birth on.
pub fn lives_go_on()
    ensures { LivesGoOn }
{}

/// The owner of a partition is live.
pub fn owners_are_live()
    ensures { OwnersAreLive }
{}

/// The owner of a partition was born by its era.
pub fn owners_were_born()
    ensures { OwnersWereBorn }
{}

/// What a node has in its view, of partitions and of nodes, is so at its epoch.
pub fn members_know_eras()
    ensures { MembersKnowEras }
{}

/// A node that is up lives its life in each view from its birth on.
pub fn up_nodes_live()
    ensures { UpNodesLive }
{}
