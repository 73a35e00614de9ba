//! Rows of one node over frames: bytes in, bytes and status out.

ghost use Rattle.std.specs.Prelude.{◌≡◌, ◌++◌, map, codes};
ghost use Rattle.text_rules.specs.ByteRows.{two_nodes};
ghost use Rattle.run_rules.specs.Disk.{fresh_disk};
ghost use Rattle.frame_rules.specs.ServingRows.{one_node, serves, writes, MayWrite, first_view, begins, writes_one, commits, view_of_two, second_view, revokes_in_2, installs_1, malformed};
ghost use Rattle.frame_rules.specs.Serving.{ends};

/// A node alone: a view and a line, with and without room for the second frame.
pub fn row_of_one_node()
    ensures no_frame { serves one_node 9 (codes "") ≡ writes one_node (codes "") 0 }
    ensures begins { serves one_node 1000000000 (first_view ++ begins)
        ≡ writes one_node (codes "0000001752696e7374616c6c656420310a73657276696e6720300a0000000d52626567756e20302e312e310a") 0 }
    ensures limit { serves one_node 1 (first_view ++ begins)
        ≡ writes one_node (codes "0000001752696e7374616c6c656420310a73657276696e6720300a00000008456c6f6e6720320a") 7 }
    ensures at_limit { serves one_node 1 first_view ≡ writes one_node (codes "0000001752696e7374616c6c656420310a73657276696e6720300a") 0 }
    ensures write { serves one_node 9 (first_view ++ begins ++ writes_one)
        ≡ writes one_node (codes "0000001752696e7374616c6c656420310a73657276696e6720300a0000000d52626567756e20302e312e310a0000001052646f6e6520302e312e31203020300a") 0 }
    ensures no_view { serves one_node 9 begins ≡ writes one_node (codes "0000001552726566757365642033204e6f74496e566965770a") 0 }
{}

/// Frames that end serving, and lines that name another node.
pub fn row_of_ends()
    ensures second_is_bad { serves two_nodes 9 (codes "000000084c626567696e20310000000158")
        ≡ writes two_nodes (codes "0000001252726566757365642031204e6f4e6f64650a0000000e4562616420322035206b696e640a") 3 }
    ensures cut { serves two_nodes 9 (codes "000000") ≡ writes two_nodes (codes "0000000d4562616420312034206375740a") 3 }
    ensures of_itself { serves two_nodes 9 (codes "000000064d0000000001") ≡ writes two_nodes (codes "000000124562616420312036204261644669656c640a") 3 }
{}

/// Each kind of bad frame, with the last line.
pub fn row_of_malformed_frames()
    ensures { map (λ m. serves two_nodes 9 m.text) malformed ≡ map (λ m. ends (fresh_disk two_nodes) m.line 3) malformed }
{}

/// A peer that grants a version that isn't on disk.
pub fn row_of_a_wrong_version()
    ensures { serves two_nodes 9 (view_of_two ++ begins ++ codes "0000000d4c7265616420302e312e3120310000001f4d010000000102000000000100000001000000010100000000000000000103")
        ≡ writes two_nodes (codes "0000000d52696e7374616c6c656420310a000000144d010000000106010000000000000000000000000000000d52626567756e20302e312e310a0000000f52776169747320302e312e3120310a000000164d0100000001010000000001000000010000000101000000000f45646966666572732031203120300a") 10 }
{}

/// Views that aren't installed, and messages of another epoch than the node's.
pub fn row_of_epochs()
    ensures view_again { serves two_nodes 9 (view_of_two ++ view_of_two) ≡ writes two_nodes (installs_1 ++ codes "000000135272656675736564203135204e6f566965770a") 0 }
    ensures born_before { serves two_nodes 9 second_view ≡ writes two_nodes (codes "000000135272656675736564203135204e6f566965770a") 0 }
    ensures held { serves two_nodes 9 (view_of_two ++ revokes_in_2) ≡ writes two_nodes (installs_1 ++ codes "000000065268656c640a") 0 }
    ensures held_again { serves two_nodes 9 (view_of_two ++ revokes_in_2 ++ second_view ++ revokes_in_2)
        ≡ writes two_nodes (installs_1 ++ codes "000000065268656c640a0000000d52696e7374616c6c656420320a000000075274616b656e0a") 0 }
    ensures no_view { serves two_nodes 9 (codes "0000000b4d01000000010400000001") ≡ writes two_nodes (codes "0000001552726566757365642033204e6f74496e566965770a") 0 }
{}

/// A commit whose force fails and keeps nothing, and a first view whose logs can't be read.
pub fn row_of_halts()
    ensures force { MayWrite one_node (first_view ++ begins ++ writes_one ++ commits)
        (codes "0000001752696e7374616c6c656420310a73657276696e6720300a0000000d52626567756e20302e312e310a0000001052646f6e6520302e312e31203020300a0000000e4568616c74656420666f7263650a") }
    ensures log { MayWrite one_node (first_view ++ begins) (codes "0000000c4568616c746564206c6f670a") }
{}
