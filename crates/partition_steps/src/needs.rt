ghost use Rattle.std.specs.Prelude.{◌≡◌, ◌+◌, IfOk};
ghost use Rattle.partition_steps.specs.Memory.{both, needs_of, needs_of_all, no_needs};

use install_plans::PartitionPlan;
use pcl_base::{NoMemory, NodeNo};

/// How much memory plans take at most.
#[derive(Clone, Copy, Debug, PartialEq, Eq)]
pub struct Needs {
    /// Images of pages.
    pub images: usize,
    /// Replies.
    pub replies: usize,
    /// Messages.
    pub sends: usize,
}

/// How much memory a plan takes: an image, a reply and a message for each decision, a reply where the
/// partition begins to be served, and a message for the report. `NoMemory` comes where no number
/// tells it.
pub fn needs_of(plan: &PartitionPlan) -> Result<Needs, NoMemory>
    ensures { IfOk result (λ n. n ≡ needs_of plan.now) }
{
    let count = plan.decisions.len();
    let replies = sum(count, usize::from(plan.begins))?;
    let sends = sum(count, usize::from(plan.report.is_some()))?;
    Ok(Needs {
        images: count,
        replies,
        sends,
    })
}

/// The same of some plans, each with its partition.
pub fn needs_of_all(plans: &[(NodeNo, PartitionPlan)]) -> Result<Needs, NoMemory>
    ensures { IfOk result (λ n. n ≡ needs_of_all plans.now) }
{
    let mut all = Needs {
        images: 0,
        replies: 0,
        sends: 0,
    };
    for plan in plans {
        all = both(all, needs_of(&plan.1)?)?;
    }
    Ok(all)
}

/// The memory for two things.
fn both(one: Needs, other: Needs) -> Result<Needs, NoMemory>
    ensures { IfOk result (λ n. n ≡ both one other) }
{
    Ok(Needs {
        images: sum(one.images, other.images)?,
        replies: sum(one.replies, other.replies)?,
        sends: sum(one.sends, other.sends)?,
    })
}

/// A sum; `NoMemory` where no number tells it.
pub(crate) fn sum(one: usize, other: usize) -> Result<usize, NoMemory>
    ensures { IfOk result (λ n. n ≡ one + other) }
{
    match one.checked_add(other) {
        None => Err(NoMemory),
        Some(sum) => Ok(sum),
    }
}
