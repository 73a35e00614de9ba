//! What holds of each generated schedule.

ghost use Rattle.std.specs.Prelude.{◌≡◌, ℕ, length};
ghost use Rattle.pcl_base.specs.Limits.{Sizes};
ghost use Rattle.text_rules.specs.Generator.{made_events};

/// It has exactly as many events as lines are asked for.
pub fn as_many_events()
    ensures { (c : Sizes) (seed lines : ℕ) → length (made_events c seed lines) ≡ lines }
{}
