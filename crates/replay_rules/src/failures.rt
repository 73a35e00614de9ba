//! Worked inputs: failures.

ghost use Rattle.replay_rules.specs.Inputs.{Replays};
ghost use Rattle.replay_rules.specs.Failures.{all_nodes_down, node_comes_back, survivor_commits_after_report};

/// All nodes down.
pub fn row_of_all_nodes_down()
    ensures { Replays all_nodes_down }
{}

/// Node comes back.
pub fn row_of_node_comes_back()
    ensures { Replays node_comes_back }
{}

/// Survivor commits after report.
pub fn row_of_survivor_commits_after_report()
    ensures { Replays survivor_commits_after_report }
{}
