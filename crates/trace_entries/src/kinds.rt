ghost use Rattle.std.specs.Prelude.{◌≡◌};
ghost use Rattle.cluster_rules.specs.Clusters.{kind_of_copy, version_of_change};

use pcl_base::{Change, CopyKind, CopyPart, Version};

/// What a note says of a grant's copy.
pub(crate) fn kind_of(copy: &CopyPart) -> CopyKind
    ensures { result ≡ kind_of_copy copy.now }
{
    match copy {
        CopyPart::Current => CopyKind::Current,
        CopyPart::Image(_) => CopyKind::Image,
        CopyPart::OnDisk => CopyKind::OnDisk,
    }
}

/// The version that a change brings.
pub(crate) fn version_of(change: &Option<Change>) -> Option<Version>
    ensures { result ≡ version_of_change change.now }
{
    match change {
        Some(change) => Some(change.version),
        None => None,
    }
}
