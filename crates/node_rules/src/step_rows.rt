//! Rows of whole steps of one node.

ghost use Rattle.std.specs.Prelude.{◌≡◌, ◌∷◌, [], true, false, Some, None};
ghost use Rattle.pcl_base.specs.declared.tx.Mode.TheVariants.{Shared, Exclusive};
ghost use Rattle.pcl_base.specs.declared.message.Body.TheVariants as body;
ghost use Rattle.pcl_base.specs.declared.message.CopyPart.TheVariants as part;
ghost use Rattle.pcl_base.specs.declared.reply.Reply.TheVariants as reply;
ghost use Rattle.pcl_base.specs.declared.reply.Reason.TheVariants as reason;
ghost use Rattle.node_rules.specs.NodeState.{Begin, Read, Write, Commit, Abort, Evict, Install};
ghost use Rattle.run_rules.specs.Disk.{fresh_disk};
ghost use Rattle.node_rules.specs.DiskCalls.{WritePage, Force};
ghost use Rattle.node_rules.specs.StepRows.{told, from_start, over_disk, three, two, t1, t2, other, front, wrote, stored, from_one, to_one, grant_with_right, alone, two_left, left_by_one};

/// A node's own pages, and its frames.
pub fn row_of_own_pages()
    ensures begun { from_start (Begin ∷ []) ≡ told (reply.Begun t1 ∷ []) [] [] }
    ensures reads_its_write { from_start (Begin ∷ Write t1 0 0 (7 ∷ []) ∷ Read t1 0 ∷ []) ≡ told (reply.Value t1 0 0 (front 7) ∷ []) [] [] }
    ensures forces { from_start (Begin ∷ Write t1 0 0 (7 ∷ []) ∷ Commit t1 ∷ [])
        ≡ told (reply.Committed t1 ∷ []) [] (Force t1 (wrote t1 0 7) ∷ []) }
    ensures reads_alone { from_start (Begin ∷ Read t1 0 ∷ Commit t1 ∷ []) ≡ told (reply.Committed t1 ∷ []) [] [] }
    ensures gives_up { from_start (Begin ∷ Write t1 0 0 (7 ∷ []) ∷ Abort t1 ∷ Begin ∷ Read t2 0 ∷ [])
        ≡ told (reply.Value t2 0 0 (front 0) ∷ []) [] [] }
    ensures waits { from_start (Begin ∷ Begin ∷ Write t1 0 0 (7 ∷ []) ∷ Read t2 0 ∷ []) ≡ told (reply.Waits t2 0 ∷ []) [] [] }
    ensures goes_on { from_start (Begin ∷ Begin ∷ Write t1 0 0 (7 ∷ []) ∷ Read t2 0 ∷ Commit t1 ∷ [])
        ≡ told (reply.Committed t1 ∷ reply.Value t2 0 1 (front 7) ∷ []) [] (Force t1 (wrote t1 0 7) ∷ []) }
    ensures victim_is_written { from_start (Begin ∷ Write t1 0 0 (7 ∷ []) ∷ Commit t1 ∷ Begin ∷ Write t2 2 0 (8 ∷ []) ∷ [])
        ≡ told (reply.Done t2 2 0 ∷ []) [] (WritePage 0 (stored 0 7) ∷ []) }
    ensures no_frame { from_start (Begin ∷ Read t1 0 ∷ Write t1 2 0 (8 ∷ []) ∷ []) ≡ told (reply.Refused reason.NoFrame ∷ []) [] [] }
    ensures is_pinned { from_start (Begin ∷ Read t1 0 ∷ Evict 0 ∷ []) ≡ told (reply.Refused reason.Pinned ∷ []) [] [] }
{}

/// Pages of another node, and what it sends.
pub fn row_of_other_pages()
    ensures asks { from_start (Begin ∷ Read t1 1 ∷ [])
        ≡ told (reply.Waits t1 1 ∷ [])
        (to_one (body.Request (record { tx = t1; page = 1; mode = Shared; have = None })) ∷ []) [] }
    ensures is_granted { from_start (Begin ∷ Read t1 1 ∷ from_one (grant_with_right t1 3) ∷ [])
        ≡ told (reply.Taken ∷ reply.Value t1 1 3 (front 3) ∷ []) [] [] }
    ensures reads_under_right { from_start (Begin ∷ Read t1 1 ∷ from_one (grant_with_right t1 3) ∷ Begin ∷ Read t2 1 ∷ [])
        ≡ told (reply.Value t2 1 3 (front 3) ∷ []) [] [] }
    ensures reads_no_older_copy { from_start
        (Begin ∷ Read t1 1 ∷ from_one (body.Grant (record { tx = t1; page = 1; mode = Shared; right = false; version = 2; copy = part.Image (front 2) }))
        ∷ from_one (grant_with_right t1 3) ∷ Begin ∷ Read t2 1 ∷ [])
        ≡ told (reply.Waits t2 1 ∷ [])
        (to_one (body.Request (record { tx = t2; page = 1; mode = Shared; have = Some 2 })) ∷ []) [] }
    ensures names_its_readers { from_start (Begin ∷ Read t1 1 ∷ from_one (grant_with_right t1 3) ∷ Begin ∷ Read t2 1 ∷ from_one (body.Revoke 1) ∷ [])
        ≡ told (reply.Taken ∷ [])
        (to_one (body.Return (record { page = 1; readers = t1 ∷ t2 ∷ [] })) ∷ []) [] }
    ensures reads_no_more { from_start (Begin ∷ Read t1 1 ∷ from_one (grant_with_right t1 3) ∷ from_one (body.Revoke 1) ∷ Begin ∷ Read t2 1 ∷ [])
        ≡ told (reply.Waits t2 1 ∷ [])
        (to_one (body.Request (record { tx = t2; page = 1; mode = Shared; have = Some 3 })) ∷ []) [] }
    ensures grants_a_right { from_start (from_one (body.Request (record { tx = other; page = 0; mode = Shared; have = None })) ∷ [])
        ≡ told (reply.Taken ∷ [])
        (to_one (body.Grant (record { tx = other; page = 0; mode = Shared; right = true; version = 0; copy = part.OnDisk })) ∷ []) [] }
    ensures sends_an_image { from_start
        (Begin ∷ Write t1 0 0 (7 ∷ []) ∷ Commit t1
        ∷ from_one (body.Request (record { tx = other; page = 0; mode = Exclusive; have = Some 0 })) ∷ [])
        ≡ told (reply.Taken ∷ [])
        (to_one (body.Grant (record { tx = other; page = 0; mode = Exclusive; right = false; version = 1; copy = part.Image (front 7) })) ∷ []) [] }
    ensures revokes { from_start
        (from_one (body.Request (record { tx = other; page = 0; mode = Shared; have = None }))
        ∷ Begin ∷ Write t1 0 0 (7 ∷ []) ∷ [])
        ≡ told (reply.Waits t1 0 ∷ []) (to_one (body.Revoke 0) ∷ []) [] }
    ensures releases { from_start
        (Begin ∷ Read t1 1 ∷ from_one (body.Grant (record { tx = t1; page = 1; mode = Shared; right = false; version = 2; copy = part.Image (front 2) }))
        ∷ Commit t1 ∷ [])
        ≡ told (reply.Committed t1 ∷ [])
        (to_one (body.Release (record { tx = t1; page = 1; change = None })) ∷ []) [] }
{}

/// Views: what a new owner redoes, and for whom it waits.
pub fn row_of_views()
    ensures redoes { over_disk two left_by_one (Install alone ∷ [])
        ≡ told (reply.Installed 2 ∷ reply.Serving 1 ∷ []) [] (WritePage 1 (stored 1 9) ∷ []) }
    ensures serves_what_was_redone { over_disk two left_by_one (Install alone ∷ Begin ∷ Read t1 1 ∷ []) ≡ told (reply.Value t1 1 1 (front 9) ∷ []) [] [] }
    ensures waits_for_a_report { over_disk three (fresh_disk three) (Install two_left ∷ []) ≡ told (reply.Installed 2 ∷ []) [] [] }
    ensures grants_nothing_before { over_disk three (fresh_disk three) (Install two_left ∷ Begin ∷ Read t1 2 ∷ []) ≡ told (reply.Waits t1 2 ∷ []) [] [] }
    ensures late_grant { from_start (Begin ∷ Read t1 1 ∷ Install alone ∷ from_one (grant_with_right t1 3) ∷ []) ≡ told (reply.Dropped ∷ []) [] [] }
{}
