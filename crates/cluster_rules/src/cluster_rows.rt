//! Rows of runs of two nodes.

ghost use Rattle.std.specs.Prelude.{◌≡◌, ◌∷◌, [], true, false, Some, None};
ghost use Rattle.pcl_base.specs.declared.event.Event.TheVariants as event;
ghost use Rattle.pcl_base.specs.declared.reply.Reply.TheVariants as reply;
ghost use Rattle.pcl_base.specs.declared.reply.Reason.TheVariants as reason;
ghost use Rattle.pcl_base.specs.declared.trace.Call.TheVariants.{Force};
ghost use Rattle.cluster_rules.specs.ClusterRows.{t1, t2, replies_of, last_halt, on_the_way, request, commits, drops, brings_back, opens_again, t3};

/// Links: first in, first out, and nothing to or from a node that is down.
pub fn row_of_links()
    ensures in_order { on_the_way (event.Begin 0 ∷ event.Begin 0 ∷ event.Read t1 1 ∷ event.Read t2 1 ∷ []) ≡ request t1 ∷ request t2 ∷ [] }
    ensures first_goes { on_the_way (event.Begin 0 ∷ event.Begin 0 ∷ event.Read t1 1 ∷ event.Read t2 1 ∷ event.Deliver 0 1 ∷ []) ≡ request t2 ∷ [] }
    ensures lost { on_the_way (event.Begin 0 ∷ event.Crash 1 ∷ event.Read t1 1 ∷ []) ≡ [] }
    ensures cleared { on_the_way (event.Begin 0 ∷ event.Read t1 1 ∷ event.Crash 1 ∷ []) ≡ [] }
    ensures nothing_to_deliver { replies_of (event.Deliver 0 1 ∷ []) ≡ (reply.Refused reason.EmptyLink ∷ []) ∷ [] }
    ensures held_stays { replies_of (event.View (true ∷ true ∷ []) (1 ∷ 1 ∷ []) ∷ event.Install 0 ∷ event.Deliver 0 1 ∷ event.Deliver 0 1 ∷ event.Install 1 ∷ event.Deliver 0 1 ∷ [])
        ≡ (reply.Viewed 2 ∷ []) ∷ (reply.Installed 2 ∷ []) ∷ (reply.Held ∷ []) ∷ (reply.Held ∷ [])
        ∷ (reply.Installed 2 ∷ []) ∷ (reply.Taken ∷ reply.Serving 0 ∷ []) ∷ [] }
{}

/// Stops: which call they end, and what the trace says of them.
pub fn row_of_stops()
    ensures torn { last_halt (event.Arm 0 1 35 ∷ commits []) ≡ Some (record { call = Force; kept = None }) }
    ensures whole { last_halt (event.Arm 0 1 36 ∷ commits []) ≡ Some (record { call = Force; kept = Some t1 }) }
    ensures later { last_halt (event.Arm 0 2 0 ∷ commits []) ≡ None }
    ensures second { last_halt (event.Arm 0 2 0 ∷ commits (event.Begin 0 ∷ event.Write t2 0 0 (8 ∷ []) ∷ event.Commit t2 ∷ []))
        ≡ Some (record { call = Force; kept = None }) }
    ensures says_so_alone { replies_of (event.Arm 0 1 36 ∷ commits (event.Begin 0 ∷ []))
        ≡ (reply.Armed ∷ []) ∷ (reply.Begun t1 ∷ []) ∷ (reply.Done t1 0 0 ∷ []) ∷ [] ∷ (reply.Refused reason.Down ∷ []) ∷ [] }
    ensures crash_disarms { last_halt (event.Arm 0 1 0 ∷ opens_again (event.Begin 0 ∷ event.Write t3 0 0 (7 ∷ []) ∷ event.Commit t3 ∷ [])) ≡ None }
{}

/// Events of the environment.
pub fn row_of_environment()
    ensures no_node { replies_of (event.Begin 2 ∷ []) ≡ (reply.Refused reason.NoNode ∷ []) ∷ [] }
    ensures down { replies_of (event.Crash 1 ∷ event.Crash 1 ∷ []) ≡ (reply.Crashed ∷ []) ∷ (reply.Refused reason.Down ∷ []) ∷ [] }
    ensures still_up { replies_of (event.View (true ∷ false ∷ []) (0 ∷ 0 ∷ []) ∷ []) ≡ (reply.Refused reason.StillUp ∷ []) ∷ [] }
    ensures bad_view { replies_of (event.Crash 1 ∷ event.View (true ∷ false ∷ []) (0 ∷ 1 ∷ []) ∷ [])
        ≡ (reply.Crashed ∷ []) ∷ (reply.Refused (reason.BadView 4) ∷ []) ∷ [] }
    ensures no_view { replies_of (event.Install 0 ∷ []) ≡ (reply.Refused reason.NoView ∷ []) ∷ [] }
    ensures one_by_one { replies_of (drops (brings_back (event.Install 0 ∷ event.Install 0 ∷ [])))
        ≡ (reply.Crashed ∷ []) ∷ (reply.Viewed 2 ∷ []) ∷ (reply.Viewed 3 ∷ [])
        ∷ (reply.Installed 2 ∷ reply.Serving 1 ∷ []) ∷ (reply.Installed 3 ∷ []) ∷ [] }
    ensures comes_back { replies_of (drops (brings_back (event.Begin 1 ∷ event.Install 1 ∷ event.Begin 1 ∷ [])))
        ≡ (reply.Crashed ∷ []) ∷ (reply.Viewed 2 ∷ []) ∷ (reply.Viewed 3 ∷ []) ∷ (reply.Refused reason.NotInView ∷ [])
        ∷ (reply.Installed 3 ∷ []) ∷ (reply.Begun (record { node = 1; born = 3; serial = 1 }) ∷ []) ∷ [] }
    ensures reopens { replies_of (event.Reopen ∷ event.Crash 0 ∷ event.Crash 1 ∷ event.Reopen ∷ event.Install 0 ∷ [])
        ≡ (reply.Refused reason.StillUp ∷ []) ∷ (reply.Crashed ∷ []) ∷ (reply.Crashed ∷ []) ∷ (reply.Reopened 2 ∷ [])
        ∷ (reply.Installed 2 ∷ []) ∷ [] }
{}
