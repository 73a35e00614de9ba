//! Rows of links.

ghost use Rattle.std.specs.Prelude.{◌≡◌, ◌∷◌, [], true, false};
ghost use Rattle.pcl_base.specs.declared.event.Event.TheVariants as event;
ghost use Rattle.cluster_laws.specs.Link.Coming.{sent_to};
ghost use Rattle.cluster_laws.specs.Link.LinkRows.{speaking, come, asks, moves, of_epoch, report_of, out, NoReportIsSecond, NoEpochFalls};
ghost use Rattle.cluster_laws.specs.Link.Orders.{AreOrdered, is_report, how_many};

/// Messages of page 1 and a report of partition 1: page 3 is of that partition too, and page 2 isn't.
pub fn row_of_speaking()
    ensures of_it { speaking 1 ≡ true ∷ true ∷ true ∷ true ∷ true ∷ true ∷ [] }
    ensures beside_it { speaking 3 ≡ false ∷ false ∷ false ∷ false ∷ false ∷ true ∷ [] }
    ensures elsewhere { speaking 2 ≡ false ∷ false ∷ false ∷ false ∷ false ∷ false ∷ [] }
{}

/// What comes of a page: not the messages of other pages, not what was taken, nothing to a node that is down,
/// and nothing of an earlier era once the view is installed, but what is ahead of the receiver's view.
pub fn row_of_coming()
    ensures of_each { come 1 0 1 (asks []) ≡ 1 }
    ensures one_way { come 1 1 0 (asks []) ≡ 0 }
    ensures taken { come 1 0 1 (asks (event.Deliver 0 1 ∷ [])) ≡ 0 }
    ensures answered { come 1 1 0 (asks (event.Deliver 0 1 ∷ [])) ≡ 1 }
    ensures lost { come 1 0 1 (asks (event.Crash 1 ∷ [])) ≡ 0 }
    ensures still { come 1 1 0 (asks (event.Deliver 0 1 ∷ event.View (true ∷ true ∷ []) (0 ∷ 0 ∷ []) ∷ [])) ≡ 1 }
    ensures past { come 1 1 0 (asks (event.Deliver 0 1 ∷ moves [])) ≡ 0 }
    ensures ahead { come 1 1 0 (event.View (true ∷ true ∷ []) (0 ∷ 0 ∷ []) ∷ event.Install 1 ∷ []) ≡ 1 }
{}

/// What is sent to a node, in its order.
pub fn row_of_sends()
    ensures in_order { sent_to 1 (out 1 1 ∷ out 0 2 ∷ out 1 3 ∷ out 2 4 ∷ []) ≡ of_epoch 1 ∷ of_epoch 3 ∷ [] }
    ensures to_nobody { sent_to 3 (out 1 1 ∷ out 0 2 ∷ []) ≡ [] }
{}

/// Messages in their order: a report is the first of its epoch, and no epoch falls.
pub fn row_of_orders()
    ensures report_first { AreOrdered 0 (of_epoch 1 ∷ report_of 2 ∷ of_epoch 2 ∷ of_epoch 4 ∷ []) }
    ensures report_second { NoReportIsSecond }
    ensures falls { NoEpochFalls }
    ensures one_report { how_many is_report (of_epoch 1 ∷ report_of 2 ∷ of_epoch 2 ∷ []) ≡ 1 }
{}
