//! Runs that compute, and steps that the machine doesn't allow. Each row is the clause of a function that does nothing.

ghost use Rattle.std.specs.Prelude.{◌≡◌, ◌∷◌, [], Some, None, true};
ghost use Rattle.pcl_base.specs.declared.tx.Mode.TheVariants.{Shared, Exclusive};
ghost use Rattle.page_protocol.specs.Bytes.{Read, Write};
ghost use Rattle.page_protocol.specs.State.{Shelf, Reading, Current, OnDisk, Ended, current};
ghost use Rattle.page_protocol.specs.Homes.{asking, seen, Takes};
ghost use Rattle.page_protocol.specs.Authority.{Alone, NobodyWrites, NamesAll, WordFits};
ghost use Rattle.page_protocol.specs.Eras.{IsComplete, completing, reporting};
ghost use Rattle.page_protocol.specs.Steps.{Step, Reached};
ghost use Rattle.page_protocol.specs.Rows.{first_writer, next_reader, zeros, written, changed, wrote, committed_write, released, read_back, lock_given, recovered, moved, half_moved, moved_on, half_reported, unchained, OneWriter};

/// A write, a commit and a release; then another node reads the new version under a right. This is a run.
pub fn a_write_is_read_elsewhere()
    ensures run { Reached zeros read_back }
    ensures page { current read_back ≡ record { version = 1; bytes = written } }
    ensures read { read_back.script next_reader ≡ Read written ∷ [] }
    ensures entry { read_back.entry ≡ 1 }
    ensures disk { read_back.disk ≡ record { version = 0; bytes = zeros } }
    ensures right { read_back.right 2 ≡ Shelf 1 }
    ensures committed { read_back.committed ≡ (Write 1 (7 ∷ 8 ∷ []) ∷ []) ∷ [] }
{}

/// A commit puts its record into the log of its node, and the release's change isn't at the owner yet.
pub fn a_commit_is_logged_at_its_node()
    ensures log { committed_write.log 1 1 ≡ Some changed }
    ensures others { committed_write.log 0 1 ≡ None }
    ensures home { committed_write.home first_writer ≡ Ended (Some 1) 1 }
    ensures entry { committed_write.entry ≡ 0 }
{}

/// The owner is lost before the release comes: the new era has the change from the log.
pub fn a_lost_release_is_redone()
    ensures disk { recovered.disk ≡ record { version = 1; bytes = written } }
    ensures entry { recovered.entry ≡ 1 }
    ensures serves { recovered.served ≡ true }
    ensures nobody { recovered.listed first_writer 2 ≡ None }
{}

/// A report lists the lock that its node's transaction holds.
pub fn a_report_lists_the_writer()
    ensures { (reporting wrote 1 2).listed first_writer 2 ≡ Some Exclusive }
{}

/// Beside a reader, or a right, nobody is granted the page exclusively.
pub fn a_reader_bars_a_writer()
    ensures holder { Alone lock_given first_writer Exclusive → ⊥ }
    ensures right { Alone read_back first_writer Exclusive → ⊥ }
{}

/// Beside a writer nobody is granted anything.
pub fn a_writer_bars_all()
    ensures { NobodyWrites wrote → ⊥ }
{}

/// An answer to a revocation can't leave out a reader.
pub fn an_answer_names_each_reader()
    ensures { NamesAll read_back 2 [] → ⊥ }
{}

/// A node that has gone on to a later era lets a grant of the earlier one pass.
pub fn a_late_grant_is_not_taken()
    ensures { Takes moved_on 1 → ⊥ }
{}

/// An era doesn't serve before each node with a lock has reported.
pub fn an_era_waits_for_the_last_report()
    ensures { IsComplete half_reported 2 → ⊥ }
{}

/// A grant doesn't say that the page is on disk where only the owner's copy has it, nor that a copy is current
/// where its node told of none.
pub fn a_grant_tells_no_stale_copy()
    ensures disk { WordFits (asking released next_reader Shared) next_reader OnDisk → ⊥ }
    ensures current { WordFits (asking released next_reader Shared) next_reader Current → ⊥ }
{}

/// Why later eras may list nothing that earlier ones don't know: else the era that follows has a reader beside a writer.
pub fn without_the_chain_two_would_hold()
    ensures before { OneWriter unchained }
    ensures step { Step unchained (completing unchained 2 0) }
    ensures after { OneWriter (completing unchained 2 0) → ⊥ }
{}

/// A planned move in the middle: node 2 has reported to era 2 while era 1 serves, and the reader under its right goes on
/// reading when era 2 serves at node 1. This is a run.
pub fn a_move_keeps_a_reader()
    ensures run { Reached zeros moved }
    ensures bars { Alone half_moved first_writer Exclusive → ⊥ }
    ensures right { moved.right 2 ≡ Shelf 1 }
    ensures reader { moved.home next_reader ≡ Reading }
    ensures sees { seen moved next_reader ≡ written }
    ensures entry { moved.entry ≡ 1 }
    ensures owner { moved.owner ≡ 1 }
    ensures disk { moved.disk ≡ record { version = 1; bytes = written } }
{}
