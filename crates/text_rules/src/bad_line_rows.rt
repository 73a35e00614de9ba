ghost use Rattle.std.specs.Prelude.{◌≡◌, ◌∷◌, [], map, codes, true, false, Some, None};
ghost use Rattle.text_rules.specs.BadLine.{bad_at, event_forms, header_forms, bad_text, bad_header_text};
ghost use Rattle.text_rules.specs.BadLine.Why.{Byte, Short, Cut};
ghost use Rattle.text_rules.specs.BadLineRows.{good_lines, bad_lines};
ghost use Rattle.text_rules.specs.ReadEvent.{event_of};
ghost use Rattle.text_rules.specs.ScheduleLine.{line_of};
ghost use Rattle.std.specs.Option.{option_map};
ghost use Rattle.pcl_base.specs.declared.config.ConfigFault.TheVariants.{BadSize};

/// Lines of every word that are lines, and those that aren't, with column and reason.
pub fn row_of_event_lines()
    ensures good { map (λ line. bad_at true event_forms line) good_lines ≡ map (λ line. None) good_lines }
    ensures bad { map (λ r. bad_at true event_forms r.line) bad_lines ≡ map (λ r. Some (r.column, r.why)) bad_lines }
{}

/// The same lines, read: a good line gives an event whose line it is, and a bad one gives none.
pub fn row_of_read_lines()
    ensures good { map (λ line. option_map line_of (event_of line)) good_lines ≡ map (λ line. Some line) good_lines }
    ensures bad { map (λ r. event_of r.line) bad_lines ≡ map (λ r. None) bad_lines }
{}

/// A last line without a newline.
pub fn row_of_cut_lines()
    ensures front { bad_at false event_forms (codes "read 0.1.1") ≡ Some (11, Cut) }
    ensures line { bad_at false event_forms (codes "begin 0") ≡ Some (8, Cut) }
    ensures byte { bad_at false event_forms (codes "begin x") ≡ Some (7, Byte) }
    ensures empty { bad_at false header_forms [] ≡ Some (1, Cut) }
{}

/// First lines.
pub fn row_of_headers()
    ensures least { bad_at true header_forms (codes "pcl 1 1 1 8 2") ≡ None }
    ensures greatest { bad_at true header_forms (codes "pcl 1 1 1 8 65536") ≡ None }
    ensures number { bad_at true header_forms (codes "pcl 1 1 1 8 65537") ≡ Some (17, Byte) }
    ensures version { bad_at true header_forms (codes "pcl 2 1 1 8 2") ≡ Some (5, Byte) }
    ensures short { bad_at true header_forms (codes "pcl 1 1 1 8") ≡ Some (12, Short) }
{}

/// The last line of output.
pub fn row_of_bad_texts()
    ensures line { bad_text 3 20 Short ≡ codes "bad 3 20 short\n" }
    ensures header { bad_header_text BadSize ≡ codes "bad 1 0 BadSize\n" }
{}
