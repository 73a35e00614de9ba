//! Laws that join entries and the machine of one page.

ghost use Rattle.page_laws.specs.Entry.Steps.{GrantIsStep, RightIsStep, RevocationIsNone, ReleaseIsStep, ChangeIsStep, ReturnIsStep};

/// A decision of settling is a step of the machine that lists what the entry has, and the machine lists then what
/// the entry after it has; a revocation is none.
pub fn decisions_are_steps()
    ensures grant { GrantIsStep }
    ensures right { RightIsStep }
    ensures revocation { RevocationIsNone }
{}

/// The end of a transaction is a release of the machine, with a change just where the entry takes it.
pub fn releases_are_steps()
    ensures release { ReleaseIsStep }
    ensures change { ChangeIsStep }
{}

/// A right that comes back is the machine's answer to a revocation.
pub fn returns_are_steps()
    ensures { ReturnIsStep }
{}
