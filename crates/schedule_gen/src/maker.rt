ghost use Rattle.std.specs.Prelude.{◌≡◌, IfOk, OnErr, OnOk, IfSome};
ghost use Rattle.text_rules.specs.ScheduleLine.{HasLine};
ghost use Rattle.text_rules.specs.Generator.{made_events};
ghost use Rattle.schedule_gen.specs.Links.{first_of, rest_of};

use crate::machine::Machine;
use pcl_base::{Config, Event, NoMemory};
use std::alloc::Global;
use std::marker::Model;

/// A generated schedule. Contracts see the events that are still to come.
///
/// The events are those of docs/formats.md, generator: they depend on the configuration, the seed
/// and the number of lines alone.
#[derive(Drop)]
pub struct Maker {
    machine: Machine,
}

impl Model for Maker {
    ghost use Rattle.std.specs.Prelude.{List};
    ghost use Rattle.pcl_base.specs.declared.event.Event.{Event};
    ghost use Rattle.schedule_gen.specs.Machines.{left, IsSound};

    ghost Value = { List Event };

    ghost view = { λ m. left m.machine };

    ghost invariant = { λ m. IsSound m.machine };
}

impl Maker {
    /// The schedule of a seed with so many events, which is the number of lines behind the header.
    pub fn open(alloc: Global, config: &Config, seed: u32, lines: u32) -> Result<Maker, NoMemory>
        ensures { IfOk result (λ m. m ≡ made_events config.now seed lines) }
    {
        Ok(Maker {
            machine: Machine::open(alloc, config, seed, lines)?,
        })
    }

    /// The next event, or None exactly where all were given. Each event has a line.
    ///
    /// It answers [`NoMemory`] where there is none for the byte of a write or for the lists of a
    /// view. Then the same event is still to come.
    pub fn next(&mut self) -> Result<Option<Event>, NoMemory>
        ensures event { IfOk result (λ e. e ≡ first_of self.old) }
        ensures rest { OnOk result (self.new ≡ rest_of self.old) }
        ensures err { OnErr result (self.new ≡ self.old) }
        ensures has_line { IfOk result (λ o. IfSome o HasLine) }
    {
        if self.machine.is_over() {
            return Ok(None);
        }
        Ok(Some(self.machine.next()?))
    }
}
