use pcl_base::{Call, PageNo};

/// Why a stored page wasn't read.
#[derive(Clone, Copy, Debug, PartialEq, Eq)]
pub enum PageFault {
    /// The storage's count of reads that failed rose.
    Failed,
    /// The first number of the stored page isn't the page's number plus one.
    BadPage {
        /// The number that should stand there.
        expected: u64,
        /// The number that does.
        found: u64,
    },
}

/// Why a redo, or the search of what may be cut of a log, ended early.
#[derive(Clone, Copy, Debug, PartialEq, Eq)]
pub enum RedoFault {
    /// The storage's count of this kind of call rose.
    Failed(Call),
    /// The first number of a stored page isn't the page's number plus one.
    BadPage {
        /// The page.
        page: PageNo,
        /// The number that should stand there.
        expected: u64,
        /// The number that does.
        found: u64,
    },
    /// Want of memory. Nothing was written.
    NoMemory,
}
