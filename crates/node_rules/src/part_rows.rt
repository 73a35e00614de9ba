//! Rows of the parts of a node: buffer, rights, judging, copies, device calls and redo.

ghost use Rattle.std.specs.Prelude.{◌≡◌, ◌∷◌, ◌++◌, [], true, false, Some, None};
ghost use Rattle.pcl_base.specs.declared.lock.Verdict.TheVariants as verdict;
ghost use Rattle.pcl_base.specs.declared.log.Part.TheVariants.{Image};
ghost use Rattle.pcl_base.specs.declared.trace.Call.TheVariants as call;
ghost use Rattle.pcl_base.specs.declared.trace.CopyKind.TheVariants as copy;
ghost use Rattle.text_rules.specs.LogRecord.{record_bytes};
ghost use Rattle.text_rules.specs.StoredPage.{stored_bytes};
ghost use Rattle.node_rules.specs.BufferRule.{fits, victim, place, private, touch, pin, unpin, install, clean, evict, fill, change, publish, discard, free_frames};
ghost use Rattle.node_rules.specs.Shelf.{may_read, accept, add_reader, end_reader, spend};
ghost use Rattle.node_rules.specs.Judging.{judge};
ghost use Rattle.node_rules.specs.CopyRule.{copy_for};
ghost use Rattle.node_rules.specs.CutRule.{cuttable};
ghost use Rattle.node_rules.specs.DiskCalls.{left_by, all_done};
ghost use Rattle.node_rules.specs.NodeState.{cover};
ghost use Rattle.node_rules.specs.Work.{Goes, Differs};
ghost use Rattle.node_rules.specs.LockRows.{a, b};
ghost use Rattle.node_rules.specs.StepRows.{two};
ghost use Rattle.node_rules.specs.PartRows.{copied, empty, four, private_seven, from_to, fourth, at_version, changed, one_byte, one_disk, calls};

/// Slots and private copies.
pub fn row_of_frames()
    ensures free { free_frames (four (copied false 1 0 ∷ []) (private_seven None ∷ [])) ≡ 2 }
    ensures last_goes { victim (four (copied false 1 0 ∷ copied true 2 0 ∷ copied false 3 1 ∷ []) []) 9 ≡ Some (copied true 2 0) }
    ensures keeps_page { victim (four (copied false 1 0 ∷ copied true 2 0 ∷ []) []) 2 ≡ Some (copied false 1 0) }
    ensures all_pinned { victim (four (copied false 1 1 ∷ empty 2 1 ∷ []) []) 9 ≡ None }
    ensures fits_in_last { fits (four (copied false 1 1 ∷ copied false 2 1 ∷ copied false 3 1 ∷ []) []) a 4 false ≡ true }
    ensures two_are_too_many { fits (four (copied false 1 1 ∷ copied false 2 1 ∷ copied false 3 1 ∷ []) []) a 4 true ≡ false }
    ensures own_slot_stays { fits (four (copied false 1 1 ∷ copied false 2 1 ∷ copied false 3 1 ∷ copied true 4 0 ∷ []) []) a 4 true ≡ false }
    ensures places { place (four (copied false 1 0 ∷ []) []) 4 ≡ four (empty 4 0 ∷ copied false 1 0 ∷ []) [] }
    ensures takes_private { private (four [] []) a 7 ≡ four [] (private_seven None ∷ []) }
    ensures touches { touch (four (copied false 1 0 ∷ copied false 2 1 ∷ copied false 3 0 ∷ []) []) 2 ≡ four (copied false 2 1 ∷ copied false 1 0 ∷ copied false 3 0 ∷ []) [] }
    ensures pins { pin (four (empty 1 0 ∷ []) []) 1 ≡ four (empty 1 1 ∷ []) [] }
    ensures frees_a_place { unpin (four (empty 1 1 ∷ copied true 2 0 ∷ []) []) 1 ≡ four (copied true 2 0 ∷ []) [] }
    ensures keeps_a_copy { unpin (four (copied false 1 1 ∷ []) []) 1 ≡ four (copied false 1 0 ∷ []) [] }
    ensures installs { install (four (empty 7 1 ∷ []) []) 7 (record { version = 5; bytes = 1 ∷ 2 ∷ []; dirty = true }) ≡ four (copied true 7 1 ∷ []) [] }
    ensures cleans { clean (four (copied true 7 1 ∷ []) []) 7 ≡ four (copied false 7 1 ∷ []) [] }
    ensures evicts { evict (four (copied true 7 0 ∷ copied false 1 0 ∷ []) []) 7 ≡ four (copied false 1 0 ∷ []) [] }
    ensures fills { fill (four (copied true 7 1 ∷ []) (private_seven None ∷ [])) a 7 ≡ four (copied true 7 1 ∷ []) (private_seven (Some (1 ∷ 2 ∷ [])) ∷ []) }
    ensures changes { change (four [] (private_seven (Some (1 ∷ 2 ∷ [])) ∷ [])) a 7 1 (9 ∷ []) ≡ four [] (private_seven (Some (1 ∷ 9 ∷ [])) ∷ []) }
    ensures publishes { publish (four (copied true 7 1 ∷ []) (private_seven (Some (3 ∷ 4 ∷ [])) ∷ [])) a 7 false
        ≡ four (record { page = 7; copy = Some (record { version = 6; bytes = 3 ∷ 4 ∷ []; dirty = false }); pins = 1 } ∷ []) [] }
    ensures discards { discard (four [] (private_seven None ∷ [])) a 7 ≡ four [] [] }
{}

/// Rights, verdicts, and what a grant says of the copy.
pub fn row_of_words()
    ensures accepts { accept [] 1 5 ≡ record { page = 1; version = 5; readers = [] } ∷ [] }
    ensures accepts_once { accept (record { page = 1; version = 5; readers = a ∷ [] } ∷ []) 1 6 ≡ record { page = 1; version = 5; readers = a ∷ [] } ∷ [] }
    ensures reads_in_order { add_reader (add_reader (accept [] 1 5) 1 b) 1 a ≡ record { page = 1; version = 5; readers = b ∷ a ∷ [] } ∷ [] }
    ensures ends { end_reader (add_reader (add_reader (accept [] 1 5) 1 b) 1 a) 1 b ≡ record { page = 1; version = 5; readers = a ∷ [] } ∷ [] }
    ensures spends { spend (accept (accept [] 1 5) 2 6) 1 ≡ record { page = 2; version = 6; readers = [] } ∷ [] }
    ensures other_version { may_read (accept [] 1 5) 1 4 ≡ false }
    ensures early { judge fourth 0 1 5 1 ≡ verdict.Held }
    ensures taken { judge fourth 0 1 4 1 ≡ verdict.Taken }
    ensures before_the_owner { judge fourth 0 1 3 1 ≡ verdict.Dropped }
    ensures before_the_sender { judge fourth 0 1 2 0 ≡ verdict.Dropped }
    ensures before_the_receiver { judge fourth 1 0 2 0 ≡ verdict.Dropped }
    ensures from_the_lost { judge fourth 0 2 4 0 ≡ verdict.Dropped }
    ensures current { copy_for (Some 5) 5 (Some 5) ≡ copy.Current }
    ensures stale { copy_for (Some 4) 5 (Some 5) ≡ copy.Image }
    ensures on_disk { copy_for (Some 4) 5 (Some 4) ≡ copy.OnDisk }
    ensures nowhere { copy_for None 5 None ≡ copy.OnDisk }
    ensures runs_touch { cover (from_to 0 2 ∷ from_to 5 6 ∷ []) 2 4 ≡ from_to 0 4 ∷ from_to 5 6 ∷ [] }
    ensures runs_join { cover (from_to 0 2 ∷ from_to 5 6 ∷ []) 1 8 ≡ from_to 0 8 ∷ [] }
    ensures runs_rise { cover (from_to 4 5 ∷ []) 0 2 ≡ from_to 0 2 ∷ from_to 4 5 ∷ [] }
{}

/// What stops leave, what the logs make of a page, and how much of a log may go.
pub fn row_of_disk()
    ensures done { all_done 0 (one_disk [] []) calls ≡ one_disk (7 ∷ []) (8 ∷ []) }
    ensures undone { left_by 0 (one_disk [] []) calls (record { before = 0; kept = 0 }) ≡ Some (record { disk = one_disk [] []; call = call.Write; kept = None }) }
    ensures done_and_failed { left_by 0 (one_disk [] []) calls (record { before = 0; kept = 1 }) ≡ Some (record { disk = one_disk (7 ∷ []) []; call = call.Write; kept = None }) }
    ensures torn { left_by 0 (one_disk [] []) calls (record { before = 1; kept = 1 }) ≡ Some (record { disk = one_disk (7 ∷ []) (8 ∷ []); call = call.Force; kept = None }) }
    ensures kept { left_by 0 (one_disk [] []) calls (record { before = 1; kept = 2 }) ≡ Some (record { disk = one_disk (7 ∷ []) (8 ∷ 9 ∷ []); call = call.Force; kept = Some a }) }
    ensures kept_before { left_by 0 (one_disk [] []) calls (record { before = 2; kept = 0 }) ≡ Some (record { disk = one_disk (7 ∷ []) (8 ∷ 9 ∷ []); call = call.Trim; kept = Some a }) }
    ensures not_due { left_by 0 (one_disk [] []) calls (record { before = 3; kept = 0 }) ≡ None }
    ensures cuts_one { cuttable two (stored_bytes 0 (at_version 1 []) ∷ []) (record_bytes (changed 0 1 (one_byte 1 9)) ++ record_bytes (changed 0 2 (one_byte 1 9)))
        ≡ Goes 36 }
    ensures wrong_page { cuttable two (stored_bytes 1 (at_version 1 []) ∷ []) (record_bytes (changed 0 1 (one_byte 1 9))) ≡ Differs 0 1 2 }
{}
