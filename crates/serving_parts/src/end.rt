ghost use Rattle.std.specs.Prelude.{◌≡◌};
ghost use Rattle.serving_parts.specs.Turns.{status_of};

/// How serving ends.
#[derive(Clone, Copy, Debug, PartialEq, Eq)]
pub enum End {
    /// The frames, or the storage, decide the status.
    Decided { status: u8 },
    /// The source failed.
    Source,
    /// The sink failed.
    Sink,
    /// Want of memory.
    Memory,
}

impl End {
    /// The status of the program: 4, 5 and 9 for the source, the sink and want of memory. It takes no memory.
    pub fn status(self) -> u8
        ensures { result ≡ status_of self }
    {
        match self {
            End::Decided { status } => status,
            End::Source => 4,
            End::Sink => 5,
            End::Memory => 9,
        }
    }
}
