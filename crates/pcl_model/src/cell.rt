ghost use Rattle.std.specs.Prelude.{◌≡◌, ℕ, List, ◌+◌, ◌-◌, ◌^◌, ◌<◌, ◌≤◌, length, true, None, is_some, OnOk, OnErr};
ghost use Rattle.run_rules.specs.Base.{put_over};

use pcl_base::Version;
use std::alloc::{AllocError, Global};

/// A page of the base, and what the script that is being run has made of it.
#[derive(Debug, Drop)]
pub(crate) struct Cell {
    /// The number of transactions that wrote the page.
    pub(crate) version: Version,
    /// Its bytes, once some transaction wrote it; until then they are zero.
    pub(crate) bytes: Option<Vec<u8>>,
    /// What the script that is being run has made of it, once it wrote it.
    pub(crate) work: Option<Vec<u8>>,
}

/// Puts bytes over a page from a place on.
fn put(page: &mut [u8], place: usize, piece: &[u8])
    requires inside { place + length piece.now ≤ length page.old }
    requires small { length page.old < 2 ^ 63 }
    ensures { page.new ≡ put_over place piece.now page.old }
{
    page[place..place + piece.len()].copy_from_slice(piece);
}

impl Cell {
    ghost use Rattle.pcl_model.specs.Cells.{new_cell, kept_bytes, kept_page, work_bytes, next_page};

    /// A page never written.
    pub(crate) fn new() -> Cell
        ensures { result ≡ new_cell }
    {
        Cell {
            version: 0,
            bytes: None,
            work: None,
        }
    }

    /// The bytes of the page between scripts.
    pub(crate) fn kept<'a>(&'a self, zeros: &'a [u8]) -> &'a [u8]
        ensures { result.now ≡ kept_bytes zeros.now self.now }
    {
        match &self.bytes {
            Some(bytes) => bytes.as_slice(),
            None => zeros,
        }
    }

    /// The bytes of the page as the script has made it so far.
    pub(crate) fn working<'a>(&'a self, zeros: &'a [u8]) -> &'a [u8]
        ensures { result.now ≡ work_bytes zeros.now self.now }
    {
        match &self.work {
            Some(bytes) => bytes.as_slice(),
            None => self.kept(zeros),
        }
    }

    /// Puts bytes into the page as the script has made it so far. The page is copied at its first
    /// write only; without memory the cell is as before.
    pub(crate) fn write(
        &mut self,
        alloc: Global,
        zeros: &[u8],
        place: usize,
        piece: &[u8],
    ) -> Result<(), AllocError>
        requires inside { place + length piece.now ≤ length (work_bytes zeros.now self.old) }
        requires small { length (work_bytes zeros.now self.old) < 2 ^ 63 }
        ensures kept { kept_page zeros.now self.new ≡ kept_page zeros.now self.old }
        ensures worked { OnOk result (is_some self.new.work ≡ true) }
        ensures bytes { OnOk result (work_bytes zeros.now self.new ≡ put_over place piece.now (work_bytes zeros.now self.old)) }
        ensures err { OnErr result (self.new ≡ self.old) }
    {
        match &mut self.work {
            Some(page) => {
                put(page.as_mut_slice(), place, piece);
                Ok(())
            }
            None => {
                let mut page = Vec::from_slice(alloc, self.kept(zeros))?;
                put(page.as_mut_slice(), place, piece);
                self.work = Some(page);
                Ok(())
            }
        }
    }

    /// Makes what the script has made of the page its next version.
    pub(crate) fn keep(&mut self)
        requires { is_some self.old.work ≡ true → self.old.version < 2 ^ 64 - 1 }
        ensures next { (zeros : List ℕ) → kept_page zeros self.new ≡ next_page zeros self.old }
        ensures idle { self.new.work ≡ None }
    {
        if let Some(page) = self.work.take() {
            self.bytes = Some(page);
            self.version += 1;
        }
    }

    /// Forgets what the script has made of the page.
    pub(crate) fn forget(&mut self)
        ensures kept { (zeros : List ℕ) → kept_page zeros self.new ≡ kept_page zeros self.old }
        ensures idle { self.new.work ≡ None }
    {
        self.work = None;
    }
}
