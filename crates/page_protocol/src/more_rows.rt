//! Worked schedules, as one page sees them, are runs of the machine. Each row is the clause of a function that does nothing.

ghost use Rattle.std.specs.Prelude.{◌≡◌, ◌∷◌, [], Some, None, false};
ghost use Rattle.pcl_base.specs.declared.tx.Mode.TheVariants.{Shared, Exclusive};
ghost use Rattle.page_protocol.specs.Authority.{Alone};
ghost use Rattle.page_protocol.specs.Bytes.{Read, Write};
ghost use Rattle.page_protocol.specs.State.{Holding, NoRight, Shelf, current};
ghost use Rattle.page_protocol.specs.Steps.{Reached};
ghost use Rattle.page_protocol.specs.MoreRows.{begins, first_byte, first_of, image_read, right_returned, revoked_for, survivor_read, read_anew, stopped_before, stopped_after, second_reader, read_after};

/// The image goes with the release: a transaction of another node commits, and one of the owner's node, which waits for
/// the page, is granted the owner's new copy when the release comes. Nothing was written to disk.
pub fn the_image_goes_with_the_release()
    ensures run { Reached (begins 0) image_read }
    ensures page { current image_read ≡ record { version = 1; bytes = begins 7 } }
    ensures read { image_read.script (first_of 1 1) ≡ Read (begins 7) ∷ [] }
    ensures entry { image_read.entry ≡ 1 }
    ensures disk { image_read.disk ≡ record { version = 0; bytes = begins 0 } }
    ensures reader { image_read.listed (first_of 1 1) 1 ≡ None }
    ensures writer { image_read.listed (first_of 0 1) 1 ≡ None }
{}

/// A revocation meets an open reader: the answer names it, so it becomes a holder in the table, and the writer waits
/// until its release has come. Then the writer has the page alone, and its commit follows the reader's.
pub fn a_revocation_waits_for_an_open_reader()
    ensures run { Reached (begins 0) revoked_for }
    ensures holder { right_returned.listed (first_of 0 1) 1 ≡ Some Shared }
    ensures home { right_returned.home (first_of 0 1) ≡ Holding Shared }
    ensures bars { Alone right_returned (first_of 1 1) Exclusive → ⊥ }
    ensures right { revoked_for.right 0 ≡ NoRight }
    ensures page { current revoked_for ≡ record { version = 1; bytes = begins 1 } }
    ensures entry { revoked_for.entry ≡ 1 }
    ensures committed { revoked_for.committed ≡ (Read (begins 0) ∷ []) ∷ (Write 0 (1 ∷ []) ∷ []) ∷ [] }
{}

/// The owner is lost while a transaction of another node has the page, and that one commits before its node reports to
/// the new owner: the report lists nothing of it, but redo finds its record, and what waits reads the new bytes.
pub fn a_survivor_commits_before_its_report()
    ensures run { Reached (begins 0) survivor_read }
    ensures page { current survivor_read ≡ record { version = 1; bytes = begins 5 } }
    ensures read { survivor_read.script (first_of 0 1) ≡ Read (begins 5) ∷ [] }
    ensures entry { survivor_read.entry ≡ 1 }
    ensures disk { survivor_read.disk ≡ record { version = 1; bytes = begins 5 } }
    ensures log { survivor_read.log 2 1 ≡ Some (first_byte 5) }
    ensures writer { survivor_read.listed (first_of 2 1) 2 ≡ None }
{}

/// A node is lost, comes back and owns the page again: a transaction of its new life writes, and one of the other node
/// reads this under a right of the new era.
pub fn a_node_comes_back()
    ensures run { Reached (begins 0) read_anew }
    ensures page { current read_anew ≡ record { version = 1; bytes = begins 1 } }
    ensures read { read_anew.script (first_of 0 1) ≡ Read (begins 1) ∷ [] }
    ensures entry { read_anew.entry ≡ 1 }
    ensures right { read_anew.right 0 ≡ Shelf 1 }
    ensures owner { read_anew.owner ≡ 1 }
    ensures era { read_anew.era ≡ 3 }
    ensures log { read_anew.log 1 1 ≡ Some (first_byte 1) }
{}

/// A new owner stops within redo, after it wrote one page and before it wrote another: its era never serves, and each of
/// the two pages is redone in the era after it, from the disk as it was left and the same log.
pub fn a_new_owner_stops_within_redo()
    ensures written { Reached (begins 0) (read_after (stopped_after 5)) }
    ensures unwritten { Reached (begins 0) (read_after (stopped_before 6)) }
    ensures early { (stopped_after 5).disk ≡ record { version = 1; bytes = begins 5 } }
    ensures late { (stopped_before 6).disk ≡ record { version = 0; bytes = begins 0 } }
    ensures nobody { (stopped_after 5).served ≡ false }
    ensures page { current (read_after (stopped_after 5)) ≡ record { version = 1; bytes = begins 5 } }
    ensures other { current (read_after (stopped_before 6)) ≡ record { version = 1; bytes = begins 6 } }
    ensures read { (read_after (stopped_after 5)).script second_reader ≡ Read (begins 5) ∷ [] }
    ensures read_other { (read_after (stopped_before 6)).script second_reader ≡ Read (begins 6) ∷ [] }
    ensures disk { (read_after (stopped_before 6)).disk ≡ record { version = 1; bytes = begins 6 } }
    ensures writer { (read_after (stopped_after 5)).listed (first_of 2 1) 3 ≡ None }
{}
