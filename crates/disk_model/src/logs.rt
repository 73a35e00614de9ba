ghost use Rattle.std.specs.Prelude.{◌≡◌, ◌<◌, ◌≤◌, ◌++◌, [], length, take, drop, replicate, Some, IfOk, OnOk, slice_index_or, slice_set};
ghost use Rattle.disk_model.specs.Disk.{NotLowered, LoweredAtMost, HasRoom, AppendsPrefix};
ghost use Rattle.disk_model.specs.Memory.{AreCopies, no_log, bytes_in, rooms_in};

use crate::pieces::LogFile;
use pcl_base::{NoMemory, NodeNo};
use std::alloc::Global;

/// So many empty logs.
pub(crate) fn empty_logs(alloc: Global, count: usize) -> Result<Vec<LogFile>, NoMemory>
    ensures { IfOk result (λ v. v.items ≡ replicate count no_log) }
{
    let mut logs = Vec::with_capacity(alloc, count)?;
    for _node in 0..count {
        logs.push(LogFile::new(alloc))?;
    }
    Ok(logs)
}

/// The same logs, with at least their room.
pub(crate) fn same_logs(alloc: Global, logs: &[LogFile]) -> Result<Vec<LogFile>, NoMemory>
    ensures copies { IfOk result (λ v. AreCopies logs.now v.items) }
    ensures length { IfOk result (λ v. length v.items ≡ length logs.now) }
{
    let mut copies = Vec::with_capacity(alloc, logs.len())?;
    for log in logs {
        copies.push(log.copy()?)?;
    }
    Ok(copies)
}

/// Makes the spare room of a log at least `bytes`.
pub(crate) fn reserve_in(logs: &mut [LogFile], node: NodeNo, bytes: usize) -> Result<(), NoMemory>
    requires { node < length logs.old }
    ensures made { OnOk result (HasRoom (Some (rooms_in logs.new)) node bytes) }
    ensures rooms { NotLowered (Some (rooms_in logs.old)) (Some (rooms_in logs.new)) }
    ensures bytes { bytes_in logs.new ≡ bytes_in logs.old }
{
    logs[node as usize].reserve(bytes)
}

/// Appends the first `kept` of some bytes to a log whose spare room is enough for all of them. It
/// takes no memory.
pub(crate) fn append_to(logs: &mut [LogFile], node: NodeNo, bytes: &[u8], kept: usize)
    requires node { node < length logs.old }
    requires room { HasRoom (Some (rooms_in logs.old)) node (length bytes.now) }
    requires kept { kept ≤ length bytes.now }
    ensures bytes { bytes_in logs.new ≡ slice_set (bytes_in logs.old) node (slice_index_or (bytes_in logs.old) node [] ++ take kept bytes.now) }
    ensures torn { AppendsPrefix (Some (bytes_in logs.old)) (Some (bytes_in logs.new)) node bytes.now }
    ensures rooms { LoweredAtMost (Some (rooms_in logs.old)) (Some (rooms_in logs.new)) node (length bytes.now) }
{
    logs[node as usize].append(&bytes[..kept]);
}

/// Keeps the first `keep` bytes of a log.
pub(crate) fn trim_in(logs: &mut [LogFile], node: NodeNo, keep: usize)
    requires { node < length logs.old }
    ensures bytes { bytes_in logs.new ≡ slice_set (bytes_in logs.old) node (take keep (slice_index_or (bytes_in logs.old) node [])) }
    ensures rooms { NotLowered (Some (rooms_in logs.old)) (Some (rooms_in logs.new)) }
{
    logs[node as usize].trim(keep);
}

/// Takes the first `count` bytes off a log.
pub(crate) fn cut_in(logs: &mut [LogFile], node: NodeNo, count: usize)
    requires node { node < length logs.old }
    requires count { count ≤ length (slice_index_or (bytes_in logs.old) node []) }
    ensures bytes { bytes_in logs.new ≡ slice_set (bytes_in logs.old) node (drop count (slice_index_or (bytes_in logs.old) node [])) }
    ensures rooms { NotLowered (Some (rooms_in logs.old)) (Some (rooms_in logs.new)) }
{
    logs[node as usize].cut(count);
}
