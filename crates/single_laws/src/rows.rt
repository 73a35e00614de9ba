//! Computed rows of a small run, each as the clause of an empty function.

ghost use Rattle.std.specs.Prelude.{◌≡◌, true, false, None, [], ◌∷◌};
ghost use Rattle.pcl_base.specs.declared.reply.Reason.TheVariants.{NoFrame};
ghost use Rattle.pcl_base.specs.declared.reply.Reply.TheVariants.{Begun, Done, Value, Committed, Aborted, Evicted, Cut, Refused};
ghost use Rattle.single_laws.specs.Alone.{open_in};
ghost use Rattle.single_laws.specs.AloneRows.{t, comes_back, replies_of, open_counts, plain_flags, each_kind};

/// A page that was committed is written to disk when its frame is needed, and is read back as it was;
/// an access for which no frame is free is refused.
pub fn row_of_replies()
    ensures { replies_of comes_back
        ≡ (Begun (t 1) ∷ [])
        ∷ (Done (t 1) 0 0 ∷ [])
        ∷ (Committed (t 1) ∷ [])
        ∷ (Begun (t 2) ∷ [])
        ∷ (Value (t 2) 1 0 (0 ∷ 0 ∷ 0 ∷ 0 ∷ 0 ∷ 0 ∷ 0 ∷ 0 ∷ []) ∷ [])
        ∷ (Value (t 2) 2 0 (0 ∷ 0 ∷ 0 ∷ 0 ∷ 0 ∷ 0 ∷ 0 ∷ 0 ∷ []) ∷ [])
        ∷ (Refused NoFrame ∷ [])
        ∷ (Committed (t 2) ∷ [])
        ∷ (Begun (t 3) ∷ [])
        ∷ (Value (t 3) 0 1 (0 ∷ 0 ∷ 7 ∷ 8 ∷ 0 ∷ 0 ∷ 0 ∷ 0 ∷ []) ∷ [])
        ∷ (Aborted (t 3) ∷ [])
        ∷ (Evicted ∷ [])
        ∷ (Cut 37 ∷ [])
        ∷ [] }
{}

/// At most one transaction is open in each cluster of that run.
pub fn row_of_open_counts()
    ensures up { open_counts comes_back ≡ 0 ∷ 1 ∷ 1 ∷ 0 ∷ 1 ∷ 1 ∷ 1 ∷ 1 ∷ 0 ∷ 1 ∷ 1 ∷ 0 ∷ 0 ∷ 0 ∷ [] }
    ensures down { open_in None ≡ 0 }
{}

/// All events are plain but a crash, a view, and a stop that is armed.
pub fn row_of_plain_events()
    ensures { plain_flags each_kind
        ≡ true ∷ true ∷ true ∷ true ∷ true ∷ true ∷ true ∷ true ∷ false ∷ false ∷ true ∷ true ∷ false ∷ true ∷ [] }
{}
