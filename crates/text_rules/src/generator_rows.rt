ghost use Rattle.std.specs.Prelude.{◌≡◌, ◌∷◌, [], codes};
ghost use Rattle.text_rules.specs.Generator.{made_text};
ghost use Rattle.text_rules.specs.GeneratorRows.{two_nodes, three_nodes, made_lines};

/// The first lines of a generated schedule.
pub fn row_of_four_lines()
    ensures { made_text two_nodes 1 4 ≡ codes "pcl 1 2 4 8 4\nbegin 1\nbegin 1\nread 1.1.1 1\nwrite 1.1.2 3 0 5f\n" }
{}

/// The lines of a failure in round 20, and the delivery after it.
pub fn row_of_a_failure()
    ensures { made_lines three_nodes 7 694 5 ≡ codes "crash 0" ∷ codes "view 011 1,1,2" ∷ codes "install 1" ∷ codes "install 2" ∷ codes "deliver 1 2" ∷ [] }
{}
