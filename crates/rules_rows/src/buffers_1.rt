//! Worked schedules: buffers 1.

ghost use Rattle.rules_rows.specs.Schedules.{ReadsAs, Prints, StaysSafe};
ghost use Rattle.rules_rows.specs.Buffers1.{least_pool_second_write, no_frame, flush_cut_evict, copy_under_right_evicted, changed_ranges_in_one_record};

/// Least pool second write.
pub fn row_of_least_pool_second_write()
    ensures read { ReadsAs least_pool_second_write }
    ensures printed { Prints least_pool_second_write }
    ensures safe { StaysSafe least_pool_second_write }
{}

/// No frame.
pub fn row_of_no_frame()
    ensures read { ReadsAs no_frame }
    ensures printed { Prints no_frame }
    ensures safe { StaysSafe no_frame }
{}

/// Flush cut evict.
pub fn row_of_flush_cut_evict()
    ensures read { ReadsAs flush_cut_evict }
    ensures printed { Prints flush_cut_evict }
    ensures safe { StaysSafe flush_cut_evict }
{}

/// Copy under right evicted.
pub fn row_of_copy_under_right_evicted()
    ensures read { ReadsAs copy_under_right_evicted }
    ensures printed { Prints copy_under_right_evicted }
    ensures safe { StaysSafe copy_under_right_evicted }
{}

/// Changed ranges in one record.
pub fn row_of_changed_ranges_in_one_record()
    ensures read { ReadsAs changed_ranges_in_one_record }
    ensures printed { Prints changed_ranges_in_one_record }
    ensures safe { StaysSafe changed_ranges_in_one_record }
{}
