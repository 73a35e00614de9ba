//! The words that name a measurement.

/// What is measured.
#[derive(Clone, Copy)]
pub(crate) enum Measured {
    OneNode,
    Locks,
    Settle,
    Begin,
    Add,
    Wait,
    SetKind,
    Read,
    End,
    Hit,
    Replace,
    Prepare,
    PrepareLarge,
    PrepareRanges,
}

/// The measurement of a word.
pub(crate) fn named(word: &str) -> Option<Measured> {
    const NAMES: [(&str, Measured); 14] = [
        ("one-node", Measured::OneNode),
        ("locks", Measured::Locks),
        ("settle", Measured::Settle),
        ("begin", Measured::Begin),
        ("add", Measured::Add),
        ("wait", Measured::Wait),
        ("set-kind", Measured::SetKind),
        ("read", Measured::Read),
        ("end", Measured::End),
        ("hit", Measured::Hit),
        ("replace", Measured::Replace),
        ("prepare", Measured::Prepare),
        ("prepare-large", Measured::PrepareLarge),
        ("prepare-ranges", Measured::PrepareRanges),
    ];
    for (name, measured) in NAMES {
        if name == word {
            return Some(measured);
        }
    }
    None
}
