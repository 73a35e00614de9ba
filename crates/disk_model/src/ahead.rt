ghost use Rattle.std.specs.Prelude.{◌≡◌, ◌<◌, length, None, slice_index_or, slice_set, is_some};
ghost use Rattle.disk_model.specs.Stops.{stop_fate, stop_after, read_fate, read_after};
ghost use Rattle.disk_model.specs.Memory.{kept_by};

use crate::stop::Stop;
use pcl_base::NodeNo;

/// Counts a changing call of a node: what it keeps where it fails.
pub(crate) fn next_change(stops: &mut [Option<Stop>], node: NodeNo) -> Option<u32>
    requires { node < length stops.old }
    ensures kept { result ≡ kept_by (stop_fate (slice_index_or stops.old node None)) }
    ensures after { stops.new ≡ slice_set stops.old node (stop_after (slice_index_or stops.old node None)) }
{
    change_from(&mut stops[node as usize])
}

/// Counts a reading call of a node: whether it fails.
pub(crate) fn next_read(failing: &mut [Option<u32>], by: NodeNo) -> bool
    requires { by < length failing.old }
    ensures fails { result ≡ is_some (kept_by (read_fate (slice_index_or failing.old by None))) }
    ensures after { failing.new ≡ slice_set failing.old by (read_after (slice_index_or failing.old by None)) }
{
    read_from(&mut failing[by as usize])
}

/// The next changing call under a stop.
fn change_from(armed: &mut Option<Stop>) -> Option<u32>
    ensures kept { result ≡ kept_by (stop_fate armed.old) }
    ensures after { armed.new ≡ stop_after armed.old }
{
    match *armed {
        None => None,
        Some(stop) => {
            if stop.call <= 1 {
                *armed = None;
                return Some(stop.kept);
            }
            *armed = Some(Stop {
                call: stop.call - 1,
                kept: stop.kept,
            });
            None
        }
    }
}

/// The next reading call before a failing one.
fn read_from(failing: &mut Option<u32>) -> bool
    ensures fails { result ≡ is_some (kept_by (read_fate failing.old)) }
    ensures after { failing.new ≡ read_after failing.old }
{
    match *failing {
        None => false,
        Some(call) => {
            if call <= 1 {
                *failing = None;
                return true;
            }
            *failing = Some(call - 1);
            false
        }
    }
}
