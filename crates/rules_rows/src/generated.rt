//! Generated schedules and long ones.

ghost use Rattle.std.specs.Prelude.{◌≡◌, codes};
ghost use Rattle.text_rules.specs.Totals.{totals_text};
ghost use Rattle.rules_rows.specs.Schedules.{ReadsAs, Prints, StaysSafe};
ghost use Rattle.rules_rows.specs.Generated.{header_of_one_node, too_many_open, StaysSafeIn, totals_of_generated};

/// Header of one node.
pub fn row_of_header_of_one_node()
    ensures read { ReadsAs header_of_one_node }
    ensures printed { Prints header_of_one_node }
    ensures safe { StaysSafe header_of_one_node }
{}

/// Too many open.
pub fn row_of_too_many_open()
    ensures read { ReadsAs too_many_open }
    ensures printed { Prints too_many_open }
{}

/// Too many open: each cluster of its run is safe, a part of the run at a time.
pub fn row_of_too_many_open_safe()
    ensures from_0 { StaysSafeIn too_many_open 0 64 }
    ensures from_64 { StaysSafeIn too_many_open 64 64 }
    ensures from_128 { StaysSafeIn too_many_open 128 64 }
    ensures from_192 { StaysSafeIn too_many_open 192 64 }
    ensures from_256 { StaysSafeIn too_many_open 256 64 }
    ensures from_320 { StaysSafeIn too_many_open 320 64 }
    ensures from_384 { StaysSafeIn too_many_open 384 64 }
    ensures from_448 { StaysSafeIn too_many_open 448 64 }
    ensures from_512 { StaysSafeIn too_many_open 512 64 }
    ensures from_576 { StaysSafeIn too_many_open 576 64 }
    ensures from_640 { StaysSafeIn too_many_open 640 64 }
    ensures from_704 { StaysSafeIn too_many_open 704 64 }
    ensures from_768 { StaysSafeIn too_many_open 768 64 }
    ensures from_832 { StaysSafeIn too_many_open 832 64 }
    ensures from_896 { StaysSafeIn too_many_open 896 64 }
    ensures from_960 { StaysSafeIn too_many_open 960 64 }
    ensures from_1024 { StaysSafeIn too_many_open 1024 64 }
{}

/// Generated schedule, with its totals.
pub fn row_of_generated_totals()
    ensures { totals_text (totals_of_generated 1 4) ≡ codes "events 4\nbegun 2\nvalues 1\ndone 1\nwaits 0\ncommitted 0\naborted 0\nheld 0\ndropped 0\nrefused 0\nhalted 0\nrequests 0\ngrants 0\nreleases 0\nrevokes 0\nreturns 0\nreports 0\nimages 0\n" }
{}
