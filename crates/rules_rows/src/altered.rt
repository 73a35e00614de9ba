//! Worked schedules whose traces have one line changed, and where a word of the headline refuses them.

ghost use Rattle.std.specs.Prelude.{◌≡◌, Some};
ghost use Rattle.rules_rows.specs.Altered.{PrintsAltered, first_stale, first_uncaused, changed_value, missing_revocation, release_twice};

/// Changed value.
pub fn row_of_changed_value()
    ensures printed { PrintsAltered changed_value }
    ensures stale { first_stale changed_value ≡ Some 8 }
{}

/// Missing revocation.
pub fn row_of_missing_revocation()
    ensures printed { PrintsAltered missing_revocation }
    ensures uncaused { first_uncaused missing_revocation ≡ Some 7 }
{}

/// Release twice.
pub fn row_of_release_twice()
    ensures printed { PrintsAltered release_twice }
    ensures uncaused { first_uncaused release_twice ≡ Some 5 }
{}
