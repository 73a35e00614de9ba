//! Running a script over the cells of a base: first on working pages beside the base, then into it.

ghost use Rattle.std.specs.Prelude.{◌≡◌, ℕ, List, ◌+◌, ◌^◌, ◌<◌, ◌||◌, [], ◌∷◌, length, Ok, IsTrue, OnOk, OnErr, IfErr};
ghost use Rattle.std.specs.List.{list_all};
ghost use Rattle.pcl_base.specs.declared.script.Step.{Step};
ghost use Rattle.run_rules.specs.Running.{worked, run_script, writes, step_fits, is_below_last};
ghost use Rattle.pcl_model.specs.Cells.{kept, working, next, is_worked, IsEven, IsIdle, IsWorkOf};
ghost use Rattle.pcl_model.specs.Cells.{IsWorkUpTo, MayRise, writes_within};
ghost use Rattle.pcl_model.specs.Faults.{IsNamed};

use crate::cell::Cell;
use crate::fault::ApplyFault;
use pcl_base::{Page, Step};
use std::alloc::Global;

/// Takes one step of a script, which stands at a place of it.
fn take_step(
    alloc: Global,
    cells: &mut [Cell],
    zeros: &[u8],
    place: usize,
    step: &Step,
) -> Result<(), ApplyFault>
    requires fits { IsTrue (step_fits (length cells.old) (length zeros.now) step.now) }
    requires even { IsEven zeros.now cells.old }
    requires small { length zeros.now < 2 ^ 63 }
    ensures even { IsEven zeros.now cells.new }
    ensures kept { kept zeros.now cells.new ≡ kept zeros.now cells.old }
    ensures ok { OnOk result ((rest : List Step) →
        worked (working zeros.now cells.old) place (step.now ∷ rest)
        ≡ worked (working zeros.now cells.new) (place + 1) rest) }
    ensures fault { (rest : List Step) →
        IfErr result (λ f. IsNamed f (worked (working zeros.now cells.old) place (step.now ∷ rest))) }
    ensures written { OnOk result ((p : ℕ) → is_worked cells.new p ≡ (is_worked cells.old p || writes p step.now)) }
    ensures err { OnErr result (cells.new ≡ cells.old) }
{
    match step {
        Step::Read { page, bytes } => {
            let found = cells[*page as usize].working(zeros);
            if bytes.as_slice() == found {
                return Ok(());
            }
            let expected = Page::of(Vec::from_slice(alloc, found)?);
            Err(ApplyFault::Differs { place, expected })
        }
        Step::Write {
            page,
            place: from,
            bytes,
        } => {
            let cell = &mut cells[*page as usize];
            cell.write(alloc, zeros, *from as usize, bytes.as_slice())?;
            Ok(())
        }
    }
}

/// Takes the steps of a script one after the other.
fn work(alloc: Global, cells: &mut [Cell], zeros: &[u8], steps: &[Step]) -> Result<(), ApplyFault>
    requires fits { IsTrue (list_all (step_fits (length cells.old) (length zeros.now)) steps.now) }
    requires even { IsEven zeros.now cells.old }
    requires small { length zeros.now < 2 ^ 63 }
    requires idle { IsIdle cells.old }
    ensures even { IsEven zeros.now cells.new }
    ensures kept { kept zeros.now cells.new ≡ kept zeros.now cells.old }
    ensures ok { OnOk result (worked (working zeros.now cells.old) 0 steps.now ≡ Ok (working zeros.now cells.new)) }
    ensures fault { IfErr result (λ f. IsNamed f (worked (working zeros.now cells.old) 0 steps.now)) }
    ensures written { OnOk result (IsWorkUpTo steps.now [] cells.new) }
    ensures within { IsWorkOf steps.now cells.new }
{
    for (place, step) in steps.iter().enumerate() {
        take_step(alloc, cells, zeros, place, step)?;
    }
    Ok(())
}

/// Makes what a step has written the next version of its page.
fn keep_step(cells: &mut [Cell], step: &Step)
    requires lies { IsTrue (writes_within (length cells.old) step.now) }
    requires below { MayRise cells.old }
    ensures next { (zeros : List ℕ) → next zeros cells.new ≡ next zeros cells.old }
    ensures within { (rest : List Step) → IsWorkOf (step.now ∷ rest) cells.old → IsWorkOf rest cells.new }
    ensures below { MayRise cells.new }
    ensures even { (zeros : List ℕ) → IsEven zeros cells.old → IsEven zeros cells.new }
{
    match step {
        Step::Read { .. } => {}
        Step::Write { page, .. } => cells[*page as usize].keep(),
    }
}

/// Makes what the steps have written the next versions of their pages.
fn keep(cells: &mut [Cell], steps: &[Step])
    requires lies { IsTrue (list_all (writes_within (length cells.old)) steps.now) }
    requires within { IsWorkOf steps.now cells.old }
    requires below { MayRise cells.old }
    ensures next { (zeros : List ℕ) → kept zeros cells.new ≡ next zeros cells.old }
    ensures idle { IsIdle cells.new }
    ensures even { (zeros : List ℕ) → IsEven zeros cells.old → IsEven zeros cells.new }
{
    for step in steps {
        keep_step(cells, step);
    }
}

/// Forgets what a step has written.
fn forget_step(cells: &mut [Cell], step: &Step)
    requires lies { IsTrue (writes_within (length cells.old) step.now) }
    ensures kept { (zeros : List ℕ) → kept zeros cells.new ≡ kept zeros cells.old }
    ensures within { (rest : List Step) → IsWorkOf (step.now ∷ rest) cells.old → IsWorkOf rest cells.new }
    ensures even { (zeros : List ℕ) → IsEven zeros cells.old → IsEven zeros cells.new }
{
    match step {
        Step::Read { .. } => {}
        Step::Write { page, .. } => cells[*page as usize].forget(),
    }
}

/// Forgets what the steps have written.
fn forget(cells: &mut [Cell], steps: &[Step])
    requires lies { IsTrue (list_all (writes_within (length cells.old)) steps.now) }
    requires within { IsWorkOf steps.now cells.old }
    ensures kept { (zeros : List ℕ) → kept zeros cells.new ≡ kept zeros cells.old }
    ensures idle { IsIdle cells.new }
    ensures even { (zeros : List ℕ) → IsEven zeros cells.old → IsEven zeros cells.new }
{
    for step in steps {
        forget_step(cells, step);
    }
}

/// Runs a script on the pages between scripts; on a fault they are as before.
pub(crate) fn run(
    alloc: Global,
    cells: &mut [Cell],
    zeros: &[u8],
    steps: &[Step],
) -> Result<(), ApplyFault>
    requires fits { IsTrue (list_all (step_fits (length cells.old) (length zeros.now)) steps.now) }
    requires below { IsTrue (list_all (is_below_last (kept zeros.now cells.old)) steps.now) }
    requires even { IsEven zeros.now cells.old }
    requires small { length zeros.now < 2 ^ 63 }
    requires idle { IsIdle cells.old }
    ensures even { IsEven zeros.now cells.new }
    ensures idle { IsIdle cells.new }
    ensures ok { OnOk result (run_script (kept zeros.now cells.old) steps.now ≡ Ok (kept zeros.now cells.new)) }
    ensures fault { IfErr result (λ f. IsNamed f (run_script (kept zeros.now cells.old) steps.now)) }
    ensures err { OnErr result (kept zeros.now cells.new ≡ kept zeros.now cells.old) }
{
    match work(alloc, cells, zeros, steps) {
        Ok(()) => {
            keep(cells, steps);
            Ok(())
        }
        Err(fault) => {
            forget(cells, steps);
            Err(fault)
        }
    }
}
