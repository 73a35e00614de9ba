ghost use Rattle.std.specs.Prelude.{◌≡◌, ◌<◌, ◌+◌, ◌==◌, IfOk, OnErr};
ghost use Rattle.text_rules.specs.Generator.{made_events};
ghost use Rattle.schedule_gen.specs.Machines.{left, round_of, stage_after, IsSound, IsAt, Gives, Delivers};
ghost use Rattle.schedule_gen.specs.Rest.{is_due};
ghost use Rattle.schedule_gen.specs.declared.stage.Stage.TheVariants.{BeginFirst, BeginSecond, AccessFirst, AccessSecond, Crash, View, Install, CommitFirst, AbortFirst, CommitSecond, AbortSecond};

use crate::kept::Kept;
use crate::stage::{Stage, Turn};
use crate::sweeps::Sweeps;
use pcl_base::{Config, Event, NoMemory, NodeNo, TxId};
use std::alloc::Global;

/// Gives the events of a schedule one after the other.
#[derive(Drop)]
pub(crate) struct Machine {
    config: Config,
    /// How many events are asked for.
    lines: u32,
    /// How many were given.
    given: u32,
    /// The rounds that have begun.
    rounds: u32,
    kept: Kept,
    sweeps: Sweeps,
    /// The transactions of the round.
    first: TxId,
    second: TxId,
    stage: Stage,
}

impl Machine {
    /// The machine before the first event.
    pub(crate) fn open(
        alloc: Global,
        config: &Config,
        seed: u32,
        lines: u32,
    ) -> Result<Machine, NoMemory>
        ensures left { IfOk result (λ m. left m ≡ made_events config.now seed lines) }
        ensures sound { IfOk result IsSound }
    {
        let kept = Kept::open(alloc, config, seed)?;
        let sweeps = Sweeps::open(alloc, kept.live())?;
        let none = TxId {
            node: 0,
            born: 1,
            serial: 1,
        };
        Ok(Machine {
            config: *config,
            lines,
            given: 0,
            rounds: 0,
            kept,
            sweeps,
            first: none,
            second: none,
            stage: Stage::BeginFirst,
        })
    }

    /// Whether all events were given.
    pub(crate) fn is_over(&self) -> bool
        ensures { result ≡ (self.now.given == self.now.lines) }
    {
        self.given == self.lines
    }

    /// The next event. Without memory for it all stays as it was.
    pub(crate) fn next(&mut self) -> Result<Event, NoMemory>
        requires sound { IsSound self.old }
        requires more { self.old.given < self.old.lines }
        ensures ok { IfOk result (λ e. Gives self.old self.new e) }
        ensures err { OnErr result (self.new ≡ self.old) }
    {
        if let Some(event) = self.deliver() {
            return Ok(event);
        }
        match self.stage {
            Stage::BeginFirst => Ok(self.begin_first()),
            Stage::BeginSecond { node } => Ok(self.begin_second(node)),
            Stage::AccessFirst { turn } => self.access_first(turn),
            Stage::AccessSecond { turn } => self.access_second(turn),
            Stage::Crash => Ok(self.crash()),
            Stage::View => self.view(),
            Stage::Install { place } => Ok(self.install(place)),
            Stage::CommitFirst => Ok(self.commit_first()),
            Stage::AbortFirst => Ok(self.abort_first()),
            Stage::CommitSecond => Ok(self.commit_second()),
            Stage::AbortSecond => Ok(self.abort_second()),
        }
    }

    /// Counts an event, and goes on to the next stage.
    fn go_on(&mut self, stage: Stage)
        requires { self.old.given < 4_294_967_295 }
        ensures { self.new ≡ record self.old { given = self.old.given + 1; stage = stage } }
    {
        self.given += 1;
        self.stage = stage;
    }

    /// The next delivery, where one is due.
    fn deliver(&mut self) -> Option<Event>
        requires sound { IsSound self.old }
        requires more { self.old.given < self.old.lines }
        ensures { Delivers self.old self.new result }
    {
        match self.sweeps.next() {
            None => None,
            Some((from, to)) => {
                self.given += 1;
                Some(Event::Deliver { from, to })
            }
        }
    }

    /// Begins a round.
    fn begin_first(&mut self) -> Event
        requires { IsAt BeginFirst self.old }
        ensures { Gives self.old self.new result }
    {
        let first = self.kept.draw_live();
        let second = self.kept.draw_live();
        self.first = self.kept.begin(first);
        self.rounds += 1;
        self.go_on(Stage::BeginSecond { node: second });
        Event::Begin { node: first }
    }

    fn begin_second(&mut self, node: NodeNo) -> Event
        requires { IsAt (BeginSecond node) self.old }
        ensures { Gives self.old self.new result }
    {
        self.second = self.kept.begin(node);
        self.go_on(Stage::AccessFirst { turn: Turn::First });
        Event::Begin { node }
    }

    fn access_first(&mut self, turn: Turn) -> Result<Event, NoMemory>
        requires { IsAt (AccessFirst turn) self.old }
        ensures ok { IfOk result (λ e. Gives self.old self.new e) }
        ensures err { OnErr result (self.new ≡ self.old) }
    {
        let event = self.kept.access(self.config.pages(), self.first)?;
        self.go_on(Stage::AccessSecond { turn });
        Ok(event)
    }

    /// Ends a turn, behind which there is a sweep.
    fn access_second(&mut self, turn: Turn) -> Result<Event, NoMemory>
        requires { IsAt (AccessSecond turn) self.old }
        ensures ok { IfOk result (λ e. Gives self.old self.new e) }
        ensures err { OnErr result (self.new ≡ self.old) }
    {
        let event = self.kept.access(self.config.pages(), self.second)?;
        self.sweeps.start(1);
        let stage = self.after(turn);
        self.go_on(stage);
        Ok(event)
    }

    /// The stage after a turn.
    fn after(&self, turn: Turn) -> Stage
        ensures { result ≡ stage_after self.now turn }
    {
        match turn {
            Turn::First => {
                if self.is_due() {
                    return Stage::Crash;
                }
                Stage::AccessFirst { turn: Turn::Second }
            }
            Turn::Second => Stage::AccessFirst { turn: Turn::Third },
            Turn::Third => Stage::CommitFirst,
        }
    }

    /// Whether a node fails in this round.
    fn is_due(&self) -> bool
        ensures { result ≡ is_due (round_of self.now) self.now.kept }
    {
        (self.rounds == 20 || self.rounds == 40) && 2 <= self.kept.live().len()
    }

    /// Loses a live node.
    fn crash(&mut self) -> Event
        requires { IsAt Crash self.old }
        ensures { Gives self.old self.new result }
    {
        let node = self.kept.lose();
        self.sweeps.lose(node);
        self.go_on(Stage::View);
        Event::Crash { node }
    }

    fn view(&mut self) -> Result<Event, NoMemory>
        requires { IsAt View self.old }
        ensures ok { IfOk result (λ e. Gives self.old self.new e) }
        ensures err { OnErr result (self.new ≡ self.old) }
    {
        let event = self.kept.view()?;
        self.go_on(Stage::Install { place: 0 });
        Ok(event)
    }

    /// Installs the view at a live node. Two sweeps follow the last one.
    fn install(&mut self, place: usize) -> Event
        requires { IsAt (Install place) self.old }
        ensures { Gives self.old self.new result }
    {
        let live = self.kept.live();
        let event = Event::Install { node: live[place] };
        if place + 1 < live.len() {
            self.go_on(Stage::Install { place: place + 1 });
            return event;
        }
        self.sweeps.start(2);
        self.go_on(Stage::AccessFirst { turn: Turn::Second });
        event
    }

    fn commit_first(&mut self) -> Event
        requires { IsAt CommitFirst self.old }
        ensures { Gives self.old self.new result }
    {
        self.go_on(Stage::AbortFirst);
        Event::Commit { tx: self.first }
    }

    fn abort_first(&mut self) -> Event
        requires { IsAt AbortFirst self.old }
        ensures { Gives self.old self.new result }
    {
        self.go_on(Stage::CommitSecond);
        Event::Abort { tx: self.first }
    }

    fn commit_second(&mut self) -> Event
        requires { IsAt CommitSecond self.old }
        ensures { Gives self.old self.new result }
    {
        self.go_on(Stage::AbortSecond);
        Event::Commit { tx: self.second }
    }

    /// Ends a round, behind which there is a sweep.
    fn abort_second(&mut self) -> Event
        requires { IsAt AbortSecond self.old }
        ensures { Gives self.old self.new result }
    {
        self.sweeps.start(1);
        self.go_on(Stage::BeginFirst);
        Event::Abort { tx: self.second }
    }
}
