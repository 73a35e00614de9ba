//! The limits of lines and of bytes.

ghost use Rattle.std.specs.Prelude.{◌≡◌, ◌++◌, [], codes, false};
ghost use Rattle.replay_rules.specs.Due.{fed, at_end};
ghost use Rattle.replay_rules.specs.Due.Place.{Going, Stopped};
ghost use Rattle.replay_rules.specs.Inputs.{seen};
ghost use Rattle.replay_rules.specs.LimitRows.{reading, longest_line};

/// A byte of line 200,001, and line 200,000.
pub fn row_of_the_most_lines()
    ensures one_too_many { seen (fed false (reading 200000 []) 98) ≡ (codes "long 200001\n", Stopped 7) }
    ensures newline { seen (fed false (reading 200000 []) 10) ≡ (codes "long 200001\n", Stopped 7) }
    ensures last { (fed false (reading 199999 (codes "begin 0")) 10).text ≡ codes "> begin 0\nbegun 0.1.1\n" }
    ensures end { (at_end false (Going (reading 200000 []))).place ≡ Stopped 0 }
{}

/// A byte behind the longest line that there is: it is judged without its end.
pub fn row_of_the_most_bytes()
    ensures one_too_many { seen (fed false (reading 1 longest_line) 97) ≡ (codes "bad 2 8235 byte\n", Stopped 3) }
    ensures whole { (fed false (reading 1 longest_line) 10).text ≡ codes "> " ++ longest_line ++ codes "\nrefused 1 NoNode\n" }
{}
