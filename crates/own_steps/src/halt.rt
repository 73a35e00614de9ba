ghost use Rattle.std.specs.Prelude.{◌≡◌};
ghost use Rattle.page_owner.specs.Carry.{fault_of};
ghost use Rattle.own_steps.specs.Forced.{commit_fault};

use home::HomeFault;
use node_parts::StepFault;
use pcl_base::TxId;

/// The fault of a step whose home ended early, where no transaction is kept.
pub(crate) fn halt(fault: HomeFault) -> StepFault
    ensures { result ≡ fault_of fault }
{
    match fault {
        HomeFault::Failed { call, .. } => StepFault::Halted { call, kept: None },
        HomeFault::Differs {
            page,
            expected,
            found,
        } => StepFault::Differs {
            page,
            expected,
            found,
        },
        HomeFault::Refused(_) => StepFault::NoMemory,
        HomeFault::NoMemory => StepFault::NoMemory,
    }
}

/// The fault of a step whose home couldn't commit a transaction: a halt names it where its whole record is
/// known to stand in the log.
pub(crate) fn halt_commit(fault: HomeFault, tx: TxId) -> StepFault
    ensures { result ≡ commit_fault tx fault }
{
    match fault {
        HomeFault::Failed { call, kept } => {
            if kept {
                return StepFault::Halted {
                    call,
                    kept: Some(tx),
                };
            }
            StepFault::Halted { call, kept: None }
        }
        HomeFault::Differs {
            page,
            expected,
            found,
        } => StepFault::Differs {
            page,
            expected,
            found,
        },
        HomeFault::Refused(_) => StepFault::NoMemory,
        HomeFault::NoMemory => StepFault::NoMemory,
    }
}
