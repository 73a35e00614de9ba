//! Laws of views, and of messages at later views.

ghost use Rattle.rule_laws.specs.LaterViews.{FirstIsWhole, WholeStays, NextMoves, NeverFalls, DroppedStays, TakenIsBetween, HeldIsAhead};

/// View 1 is whole: each list has an item for each node, each partition has a live owner, and each since and
/// birth is from 1 to the view's epoch.
pub fn first_is_whole()
    ensures { FirstIsWhole }
{}

/// The view after a whole one, whether nodes go on or all begin anew, is whole.
pub fn whole_stays()
    ensures { WholeStays }
{}

/// A next view has the next epoch; that is since of just the partitions whose owner changed, and the birth of
/// just the nodes that are live and were not.
pub fn next_moves()
    ensures { NextMoves }
{}

/// At later views no epoch, no since of a partition and no birth of a node is lower.
pub fn never_falls()
    ensures { NeverFalls }
{}

/// A message that is dropped at a view is dropped at each later view.
pub fn dropped_stays()
    ensures { DroppedStays }
{}

/// A message is taken just where its sender is live and its epoch is from the births of sender and receiver and
/// the since of its partition up to the view's.
pub fn taken_is_between()
    ensures { TakenIsBetween }
{}

/// A message is held just while its epoch is above the view's.
pub fn held_is_ahead()
    ensures { HeldIsAhead }
{}
