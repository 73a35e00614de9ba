//! What holds of every step of a cluster, whatever the event.

ghost use Rattle.pcl_base.specs.declared.event.Event.{Event};
ghost use Rattle.cluster_rules.specs.Clusters.{Cluster};
ghost use Rattle.cluster_rules.specs.ClusterStep.{step};
ghost use Rattle.replay_rules.specs.StepTrace.{AddsOne};

/// A step adds one entry to the trace, which is that of its event.
pub fn a_step_adds_one_entry()
    ensures { (c : Cluster) (e : Event) → AddsOne c e (step c e) }
{}
