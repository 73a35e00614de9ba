ghost use Rattle.std.specs.Prelude.{◌≡◌, ◌∷◌, [], codes};
ghost use Rattle.text_rules.specs.Totals.{totals_of, totals_text};
ghost use Rattle.text_rules.specs.LineRows.{a_read, a_refusal};
ghost use Rattle.text_rules.specs.TotalRows.{of_every_count, a_trace};

/// The totals of a trace in which each word counts something else.
pub fn row_of_totals()
    ensures counts { totals_of a_trace ≡ of_every_count }
    ensures text { totals_text (totals_of (a_read ∷ a_refusal ∷ [])) ≡ codes "events 2\nbegun 0\nvalues 1\ndone 0\nwaits 0\ncommitted 0\naborted 0\nheld 0\ndropped 0\nrefused 1\nhalted 0\nrequests 0\ngrants 0\nreleases 0\nrevokes 0\nreturns 0\nreports 0\nimages 0\n" }
{}
