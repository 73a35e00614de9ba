ghost use Rattle.std.specs.Prelude.{◌≡◌, ◌+◌, ◌∷◌, ◌-◌, ◌^◌, ◌<◌, ℕ, List, Ok, IfOk, IfErr, IsTrue, OnOk, map};
ghost use Rattle.std.specs.List.{list_all};
ghost use Rattle.pcl_base.specs.declared.script.Step.{Step};
ghost use Rattle.run_rules.specs.Base.{first_base};
ghost use Rattle.run_rules.specs.Running.{run_scripts, run_from, step_fits};
ghost use Rattle.pcl_model.specs.Serial.{IsNamedSerial, AtMost, script_fits, steps_of};

use crate::base::Base;
use crate::fault::{ApplyFault, SerialFault};
use pcl_base::{Config, Script};
use std::alloc::Global;

/// Runs one of several scripts.
fn run_one(base: &mut Base, index: usize, script: &Script) -> Result<(), SerialFault>
    requires fits { IsTrue (list_all (step_fits base.old.sizes.pages base.old.sizes.size) script.now.steps) }
    requires versions { AtMost index base.old.pages }
    requires index { index < 2 ^ 64 - 1 }
    ensures sizes { base.new.sizes ≡ base.old.sizes }
    ensures ok { OnOk result ((rest : List (List Step)) →
        run_from index (script.now.steps ∷ rest) base.old.pages
        ≡ run_from (index + 1) rest base.new.pages) }
    ensures fault { (rest : List (List Step)) →
        IfErr result (λ f. IsNamedSerial f (run_from index (script.now.steps ∷ rest) base.old.pages)) }
    ensures versions { OnOk result (AtMost (index + 1) base.new.pages) }
{
    match base.apply(script) {
        Ok(()) => Ok(()),
        Err(
            ApplyFault::Differs {
                place,
                expected: _expected,
            },
        ) => Err(SerialFault::Differs {
            script: index,
            place,
        }),
        Err(ApplyFault::NoMemory) => Err(SerialFault::NoMemory),
    }
}

/// Runs scripts one after the other from the first base, and gives the base that they leave.
///
/// `Differs` names the first script, and in it the first read, whose bytes aren't the page as the
/// scripts have left it. Each step has to be within the configuration.
pub fn judge_serial(alloc: Global, config: &Config, scripts: &[Script]) -> Result<Base, SerialFault>
    requires { IsTrue (list_all (script_fits config.now) scripts.now) }
    ensures sizes { IfOk result (λ b. b.sizes ≡ config.now) }
    ensures ok { IfOk result (λ b. run_scripts (first_base config.now) (map steps_of scripts.now) ≡ Ok b.pages) }
    ensures fault { IfErr result (λ f. IsNamedSerial f (run_scripts (first_base config.now) (map steps_of scripts.now))) }
{
    let mut base = Base::open(alloc, config)?;
    for (index, script) in scripts.iter().enumerate() {
        run_one(&mut base, index, script)?;
    }
    Ok(base)
}
