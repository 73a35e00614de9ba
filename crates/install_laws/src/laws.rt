//! The laws, each as the clause of an empty function.

ghost use Rattle.install_laws.specs.InstallRows.{AnInstallIsWorked};
ghost use Rattle.install_laws.specs.Laws.{SettlingIsPlanned, PartitionIsPlanned, PlansAreApart, InstallIsPlanned, ReportIsPlanned, PlansComeFirst, StepIsPlanned, EntriesSettleAlone, WritesAreNewer};

/// Settling pages is putting their settled table, and then carrying the decisions out.
pub fn settling_is_planned()
    ensures { SettlingIsPlanned }
{}

/// One partition of an install is its plan, made from the state before it, carried out.
pub fn partition_is_planned()
    ensures { PartitionIsPlanned }
{}

/// The plan of a partition is the same before and after another partition is worked off.
pub fn plans_are_apart()
    ensures { PlansAreApart }
{}

/// An install is the plans of all partitions, made from the state in which it begins, carried out
/// one after another.
pub fn install_is_planned()
    ensures { InstallIsPlanned }
{}

/// A report that arrives is the plan of its partition, made from the state before it, carried out.
pub fn report_is_planned()
    ensures { ReportIsPlanned }
{}

/// An install is all its plans, made first, and then carried out, up to the first that can't be made.
pub fn plans_come_first()
    ensures { PlansComeFirst }
{}

/// The step of a node on a view that it isn't refused is that: all plans are made from the pages and logs
/// before the step, and then carried out.
pub fn step_is_planned()
    ensures { StepIsPlanned }
{}

/// Settling an entry reads and changes no other one.
pub fn entries_settle_alone()
    ensures { EntriesSettleAlone }
{}

/// The pages that a plan writes rise, are of its partition, and are newer than what is stored.
pub fn writes_are_newer()
    ensures { WritesAreNewer }
{}

/// A worked install, in which a lost node's write is redone, is planned as it has to be.
pub fn an_install_is_worked()
    ensures { AnInstallIsWorked }
{}
