ghost use Rattle.std.specs.Prelude.{◌≡◌, ◌<◌, ◌≤◌, ◌+◌, ◌++◌, ◌∷◌, [], IfOk, OnOk, OnErr};
ghost use Rattle.run_rules.specs.Script.{moments, script};
ghost use Rattle.run_rules.specs.Serial.{serial};

use crate::entry::{asked_after, take_commits, take_steps};
use pcl_base::{Config, Entry, Items, NoMemory, Script, TxId};
use std::alloc::Global;
use std::marker::Model;

/// The entries of a run so far, and the configuration that it runs over.
///
/// Contracts see the configuration, the entries, and for how many more there is surely room.
#[derive(Debug, Drop)]
pub struct Trace {
    config: Config,
    entries: Vec<Entry>,
}

impl Model for Trace {
    ghost use Rattle.std.specs.Prelude.{◌-◌, vec_len, vec_capacity};
    ghost use Rattle.trace_model.specs.Seen.{TraceView};

    ghost Value = { TraceView };

    ghost view = { λ t. record { config = t.config; entries = t.entries.items; spare = vec_capacity t.entries - vec_len t.entries } };
}

impl Trace {
    /// The trace of a run that has had no event. It takes no memory.
    pub fn new(alloc: Global, config: &Config) -> Trace
        ensures config { result.config ≡ config.now }
        ensures entries { result.entries ≡ [] }
    {
        Trace {
            config: *config,
            entries: Vec::new(alloc),
        }
    }

    /// The configuration of the run.
    pub fn config(&self) -> Config
        ensures { result ≡ self.now.config }
    {
        self.config
    }

    /// The entries in order.
    pub fn entries(&self) -> &[Entry]
        ensures { result.now ≡ self.now.entries }
    {
        self.entries.as_slice()
    }

    /// Makes room for `n` more entries.
    pub fn reserve(&mut self, n: usize) -> Result<(), NoMemory>
        ensures config { self.new.config ≡ self.old.config }
        ensures entries { self.new.entries ≡ self.old.entries }
        ensures ok { OnOk result (n ≤ self.new.spare) }
        ensures spare { self.old.spare ≤ self.new.spare }
    {
        Ok(self.entries.reserve(n)?)
    }

    /// Puts an entry last. It takes no memory.
    pub fn push(&mut self, entry: Entry)
        requires { 0 < self.old.spare }
        ensures config { self.new.config ≡ self.old.config }
        ensures entries { self.new.entries ≡ self.old.entries ++ entry ∷ [] }
        ensures spare { self.old.spare ≤ self.new.spare + 1 }
    {
        match self.entries.push(entry) {
            Ok(()) => {}
            Err(_) => unreachable!(),
        }
    }

    /// The script of a transaction: its granted accesses in the order in which they were granted.
    ///
    /// A granted write has the place and the bytes that the transaction asked for last, refused
    /// events aside. One walk over the entries gives it.
    pub fn script(&self, alloc: Global, tx: TxId) -> Result<Script, NoMemory>
        ensures { IfOk result (λ s. s ≡ record { tx = tx; steps = script tx (moments self.now.entries) }) }
    {
        let mut steps = Vec::new(alloc);
        let mut asked = None;
        for entry in &self.entries {
            asked = asked_after(entry, tx, asked);
            take_steps(&mut steps, entry, tx, asked)?;
        }
        Ok(Script {
            tx,
            steps: Items::of(steps),
        })
    }

    /// Serial order: the transactions of the commit points in the order of the trace. One walk
    /// over the entries gives it.
    pub fn serial(&self, alloc: Global) -> Result<Vec<TxId>, NoMemory>
        ensures { IfOk result (λ txs. txs.items ≡ serial self.now.entries) }
    {
        let mut txs = Vec::new(alloc);
        for entry in &self.entries {
            take_commits(&mut txs, entry)?;
        }
        Ok(txs)
    }
}
