//! Rows: stops after some calls, and answers that no step gives.

ghost use Rattle.std.specs.Prelude.{◌≡◌, ℕ, [], ◌∷◌, Some, None, Result, Err};
ghost use Rattle.pcl_base.specs.declared.trace.Call.TheVariants.{Write, Force};
ghost use Rattle.run_rules.specs.Disk.{fresh_disk};
ghost use Rattle.node_rules.specs.StepRows.{two};
ghost use Rattle.node_parts.specs.declared.fault.StepFault.TheVariants.{Differs, Halted};
ghost use Rattle.step_ends.specs.Ran.{RanNot, RanPlan, stops_after};
ghost use Rattle.step_ends.specs.Rows.{first_armed, idle_plan, standing, stop, stopped_write, well};

/// Stops: a node's own is nearer after its calls, and no other one.
pub fn row_of_stops()
    ensures nearer { stops_after (first_armed 3) 0 2 ≡ first_armed 1 }
    ensures of_another { stops_after (first_armed 3) 1 2 ≡ first_armed 3 }
{}

/// Answers: where a page differs none is well, none names other numbers, and none halts without a stop; and a
/// plan that no stop ends isn't halted, one that a stop ends isn't well, and the call of a halt is that of the
/// stop.
pub fn row_of_ends()
    ensures not_well { RanNot None 1 2 3 well → ⊥ }
    ensures other_numbers { RanNot {T = ℕ} None 1 2 3 (Err (Differs 1 2 4)) → ⊥ }
    ensures no_stop { RanNot {T = ℕ} None 1 2 3 (Err (Halted Write None)) → ⊥ }
    ensures no_halt { RanPlan {T = ℕ} 0 (fresh_disk two) [] idle_plan None (Err (Halted Write None)) (standing []) (standing []) → ⊥ }
    ensures no_page { RanPlan {T = ℕ} 0 (fresh_disk two) [] idle_plan None (Err (Differs 1 2 3)) (standing []) (standing []) → ⊥ }
    ensures was_stopped { RanPlan 0 (fresh_disk two) (first_armed 1) idle_plan (Some stopped_write) well (standing (first_armed 1)) (standing (first_armed 1)) → ⊥ }
    ensures other_call { RanPlan {T = ℕ} 0 (fresh_disk two) (first_armed 1) idle_plan (Some stopped_write) (Err (Halted Force None)) (standing (first_armed 1)) (standing (None ∷ None ∷ [])) → ⊥ }
    ensures stop_stays { RanPlan {T = ℕ} 0 (fresh_disk two) (first_armed 1) idle_plan (Some stopped_write) (Err (Halted Write None)) (standing (first_armed 1)) (standing (first_armed 1)) → ⊥ }
{}
