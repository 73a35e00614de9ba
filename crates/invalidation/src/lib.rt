#![tactic(auto)]

//! What a grant says of the page's copy, so that a copy which is out of date is never read.

ghost use Rattle.std.specs.Prelude.{◌≡◌};
ghost use Rattle.node_rules.specs.CopyRule.{copy_for, is_version};

pub use pcl_base::CopyKind;
use pcl_base::Version;

/// What a grant to another node says of the page's copy, by the copy rule: `Current` exactly where
/// the version that the asking node has is the entry's; else `Image` where the version in the
/// owner's buffer is; else `OnDisk`. Takes no memory.
#[tactic(auto, unfolding(node_rules::specs::CopyRule::copy_for))]
pub fn copy_for(have: Option<Version>, version: Version, buffered: Option<Version>) -> CopyKind
    ensures { result ≡ copy_for have version buffered }
{
    if is_version(have, version) {
        return CopyKind::Current;
    }
    if is_version(buffered, version) {
        return CopyKind::Image;
    }
    CopyKind::OnDisk
}

// Whether a version is there and is this one.
fn is_version(found: Option<Version>, version: Version) -> bool
    ensures { result ≡ is_version found version }
{
    match found {
        Some(found) => found == version,
        None => false,
    }
}

#[cfg(test)]
mod tests {
    use super::*;
    use std::rt::HostRuntime;

    #[test]
    fn the_first_copy_that_serves(rt: HostRuntime) {
        let table = [
            (Some(3), Some(3), CopyKind::Current),
            (Some(3), None, CopyKind::Current),
            (Some(2), Some(3), CopyKind::Image),
            (None, Some(3), CopyKind::Image),
            (Some(2), Some(2), CopyKind::OnDisk),
            (None, None, CopyKind::OnDisk),
        ];
        for (have, buffered, kind) in table {
            assert_eq!(rt; copy_for(have, 3, buffered), kind);
        }
    }
}
