ghost use Rattle.std.specs.Prelude.{◌≡◌, ◌-◌, ◌^◌, ◌<◌, Ok, IfOk, IfErr, IsTrue, OnOk, OnErr};
ghost use Rattle.std.specs.List.{list_all};
ghost use Rattle.run_rules.specs.Base.{first_base, version_at, bytes_at};
ghost use Rattle.run_rules.specs.Running.{run_script, step_fits, is_below_last};
ghost use Rattle.pcl_model.specs.Faults.{IsNamed};

use crate::cell::Cell;
use crate::fault::ApplyFault;
use crate::work;
use pcl_base::{Config, NoMemory, PageNo, Script, Version};
use std::alloc::Global;
use std::marker::Model;

/// The pages of the database as committed transactions have made them, each with its bytes and
/// with the number of transactions that wrote it.
///
/// A page takes memory once it is written.
#[derive(Debug, Drop)]
pub struct Base {
    alloc: Global,
    config: Config,
    /// The bytes of a page never written.
    zeros: Vec<u8>,
    cells: Vec<Cell>,
}

impl Model for Base {
    ghost use Rattle.run_rules.specs.Base.{Sized};
    ghost use Rattle.pcl_model.specs.Whole.{sized_of, IsWhole};

    ghost Value = { Sized };

    ghost view = { λ b. sized_of b.config b.zeros.items b.cells.items };

    ghost invariant = { λ b. IsWhole b.config b.zeros.items b.cells.items };
}

impl Base {
    /// The first base: zero bytes and version 0 everywhere.
    pub fn open(alloc: Global, config: &Config) -> Result<Base, NoMemory>
        ensures sizes { IfOk result (λ b. b.sizes ≡ config.now) }
        ensures pages { IfOk result (λ b. b.pages ≡ first_base config.now) }
    {
        let zeros = vec![in alloc; 0u8; config.size() as usize]?;
        let mut cells = Vec::with_capacity(alloc, config.pages() as usize)?;
        for _ in 0..config.pages() {
            cells.push(Cell::new()).unwrap();
        }
        Ok(Base {
            alloc,
            config: *config,
            zeros,
            cells,
        })
    }

    /// The version of a page below P.
    pub fn version(&self, page: PageNo) -> Version
        requires { page < self.now.sizes.pages }
        ensures { result ≡ version_at self.now.pages page }
    {
        self.cells[page as usize].version
    }

    /// The bytes of a page below P.
    pub fn page(&self, page: PageNo) -> &[u8]
        requires { page < self.now.sizes.pages }
        ensures { result.now ≡ bytes_at self.now.pages page }
    {
        self.cells[page as usize].kept(&self.zeros)
    }

    /// Runs a script: each read has to find its bytes, and each written page gets its next
    /// version. A page is copied once for each script that writes it.
    ///
    /// `Differs` names the first read whose bytes aren't the page as the script has left it. The
    /// base is as before on both faults.
    pub fn apply(&mut self, script: &Script) -> Result<(), ApplyFault>
        requires fits { IsTrue (list_all (step_fits self.old.sizes.pages self.old.sizes.size) script.now.steps) }
        requires below { IsTrue (list_all (is_below_last self.old.pages) script.now.steps) }
        ensures sizes { self.new.sizes ≡ self.old.sizes }
        ensures ok { OnOk result (run_script self.old.pages script.now.steps ≡ Ok self.new.pages) }
        ensures fault { IfErr result (λ f. IsNamed f (run_script self.old.pages script.now.steps)) }
        ensures err { OnErr result (self.new ≡ self.old) }
    {
        work::run(
            self.alloc,
            &mut self.cells,
            &self.zeros,
            script.steps.as_slice(),
        )
    }
}
