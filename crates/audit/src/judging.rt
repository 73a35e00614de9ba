//! What is promised of a cluster, computed from its trace and its storage.

ghost use Rattle.std.specs.Prelude.{◌≡◌, IfOk};
ghost use Rattle.std.specs.List.{list_all};
ghost use Rattle.audit.specs.Sizes.{FitsIn};
ghost use Rattle.pcl_model.specs.Serial.{script_fits};
ghost use Rattle.run_rules.specs.Running.{step_fits};

use cluster::Cluster;
use disk_model::MemStorage;
use msg_account::accounted;
use page_store::read;
use partition_redo::redo;
use pcl_base::{Config, NoMemory, Script, Step};
use pcl_model::{Base, judge_serial};
use std::alloc::Global;
use trace_model::Trace;

/// What was wrong.
#[derive(Clone, Copy)]
pub(crate) enum What {
    /// A line isn't one of the grammar.
    Line,
    /// A step was not made.
    Step,
    /// A message has no cause.
    Message,
    /// The committed transactions don't run one after another.
    Order,
    /// A page isn't as they leave it.
    Page,
    /// Want of memory.
    Memory,
}

impl What {
    /// Its word.
    pub(crate) fn word(&self) -> &'static str {
        match self {
            What::Line => "line",
            What::Step => "step",
            What::Message => "message",
            What::Order => "order",
            What::Page => "page",
            What::Memory => "memory",
        }
    }
}

/// Looks for all that is promised.
pub(crate) fn judge(alloc: Global, cluster: &Cluster) -> Result<(), What> {
    match accounted(alloc, cluster.trace()) {
        Ok(None) => {}
        Ok(Some(_)) => return Err(What::Message),
        Err(_) => return Err(What::Memory),
    }
    let config = cluster.trace().config();
    let base = serial_base(alloc, &config, cluster.trace())?;
    let mut copy = copied(&config, cluster)?;
    redo_all(alloc, &config, &mut copy)?;
    compare_all(alloc, &config, &base, &mut copy)
}

/// A copy of the storage.
fn copied(config: &Config, cluster: &Cluster) -> Result<MemStorage, What>
    requires { config.now ≡ cluster.now.config }
    ensures { IfOk result (FitsIn config.now) }
{
    match cluster.storage().copy() {
        Ok(copy) => Ok(copy),
        Err(_) => Err(What::Memory),
    }
}

/// The pages that the committed transactions leave, one after another in commit order.
fn serial_base(alloc: Global, config: &Config, trace: &Trace) -> Result<Base, What>
    ensures { IfOk result (λ b. b.sizes ≡ config.now) }
{
    let Ok(scripts) = scripts_of(alloc, trace) else {
        return Err(What::Memory);
    };
    if !all_fit(config, scripts.as_slice()) {
        return Err(What::Order);
    }
    match judge_serial(alloc, config, scripts.as_slice()) {
        Ok(base) => Ok(base),
        Err(_) => Err(What::Order),
    }
}

/// The scripts of the committed transactions, in commit order.
fn scripts_of(alloc: Global, trace: &Trace) -> Result<Vec<Script>, NoMemory> {
    let txs = trace.serial(alloc)?;
    let mut scripts = Vec::new(alloc);
    for tx in &txs {
        scripts.push(trace.script(alloc, *tx)?)?;
    }
    Ok(scripts)
}

/// Whether all scripts are within the configuration.
fn all_fit(config: &Config, scripts: &[Script]) -> bool
    ensures { result ≡ list_all (script_fits config.now) scripts.now }
{
    for script in scripts {
        if !script_within(config, script) {
            return false;
        }
    }
    true
}

/// Whether all steps of a script are.
fn script_within(config: &Config, script: &Script) -> bool
    ensures { result ≡ script_fits config.now script.now }
{
    for step in script.steps.as_slice() {
        if !step_within(config.pages(), config.size(), step) {
            return false;
        }
    }
    true
}

/// Whether a step is.
fn step_within(pages: u32, size: u32, step: &Step) -> bool
    ensures { result ≡ step_fits pages size step.now }
{
    match step {
        Step::Read { page, .. } => *page < pages,
        Step::Write { page, place, bytes } => {
            *page < pages && *place as u64 + bytes.as_slice().len() as u64 <= size as u64
        }
    }
}

/// Redoes all pages.
fn redo_all(alloc: Global, config: &Config, storage: &mut MemStorage) -> Result<(), What>
    requires { FitsIn config.now storage.old }
    ensures { FitsIn config.now storage.new }
{
    let mut pages = Vec::new(alloc);
    for page in 0..config.pages() {
        if pages.push(page).is_err() {
            return Err(What::Memory);
        }
    }
    match redo(alloc, storage, config, 0, &pages) {
        Ok(_) => Ok(()),
        Err(_) => Err(What::Page),
    }
}

/// Compares all stored pages with those of a base.
fn compare_all(
    alloc: Global,
    config: &Config,
    base: &Base,
    storage: &mut MemStorage,
) -> Result<(), What>
    requires base { base.now.sizes ≡ config.now }
    requires sizes { FitsIn config.now storage.old }
{
    let Ok(mut raw) = vec![in alloc; 0u8; config.size() as usize + 16] else {
        return Err(What::Memory);
    };
    for page in 0..config.pages() {
        let Ok(version) = read(storage, 0, page, raw.as_mut_slice()) else {
            return Err(What::Page);
        };
        if version != base.version(page) || raw.as_slice().get(16..) != Some(base.page(page)) {
            return Err(What::Page);
        }
    }
    Ok(())
}
