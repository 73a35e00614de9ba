ghost use Rattle.std.specs.Prelude.{◌≡◌, ◌++◌, ◌∷◌, [], codes, Some, None};
ghost use Rattle.text_rules.specs.ScheduleLine.{line_of, header_line};
ghost use Rattle.text_rules.specs.ReadEvent.{event_of};
ghost use Rattle.text_rules.specs.ReadLine.{header_of};
ghost use Rattle.text_rules.specs.TraceText.{entry_text, trace_text};
ghost use Rattle.text_rules.specs.LineRows.{a_write, an_empty_write, a_view, a_read, a_refusal, a_send, a_header};

/// Lines as they are printed.
pub fn row_of_lines()
    ensures write { line_of a_write ≡ codes "write 0.1.12 65535 4095 beef" }
    ensures empty { line_of an_empty_write ≡ codes "write 0.1.12 0 0 -" }
    ensures view { line_of a_view ≡ codes "view 10 0,10" }
    ensures header { header_line a_header ≡ codes "pcl 1 1 1 8 4" }
{}

/// Lines that are read.
pub fn row_of_reading()
    ensures header { header_of (codes "pcl 1 1 1 8 4") ≡ Some a_header }
    ensures write { event_of (codes "write 0.1.12 65535 4095 beef") ≡ Some a_write }
    ensures empty { event_of (codes "write 0.1.12 0 0 -") ≡ Some an_empty_write }
    ensures view { event_of (codes "view 10 0,10") ≡ Some a_view }
{}

/// Lines that are outside the grammar.
pub fn row_of_bad_lines()
    ensures zero { event_of (codes "begin 00") ≡ None }
    ensures node { event_of (codes "begin 16") ≡ None }
    ensures serial { event_of (codes "commit 0.1.0") ≡ None }
    ensures page { event_of (codes "read 0.1.1 x") ≡ None }
    ensures more { event_of (codes "read 0.1.1 1 ") ≡ None }
    ensures odd { event_of (codes "write 0.1.1 1 0 abc") ≡ None }
    ensures upper { event_of (codes "write 0.1.1 1 0 AB") ≡ None }
    ensures nothing { event_of (codes "write 0.1.1 1 0 ") ≡ None }
    ensures header { header_of (codes "pcl 1 1 1 8 65537") ≡ None }
{}

/// Text of entries and of a whole trace.
pub fn row_of_texts()
    ensures read { entry_text a_read ≡ codes "> read 0.1.12 3\nvalue 0.1.12 3 2 00ab\n" }
    ensures refused { entry_text a_refusal ≡ codes "> view 10 0,10\nrefused 14 BadView 6\n" }
    ensures sent { entry_text a_send ≡ codes "> begin 3\nsend 0 1 7 request 0.1.12 5 X -\n" }
    ensures whole { trace_text a_header (a_read ∷ []) ≡ codes "> pcl 1 1 1 8 4\n> read 0.1.12 3\nvalue 0.1.12 3 2 00ab\nend 1 0\n" }
{}
