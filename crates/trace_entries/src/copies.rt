ghost use Rattle.std.specs.Prelude.{◌≡◌, IfOk};
ghost use Rattle.trace_entries.specs.Copies.{IsBare};

use pcl_base::{Event, NoMemory};

/// An equal event in memory of its own. `NoMemory` where memory is refused.
pub fn copy_event(event: &Event) -> Result<Event, NoMemory>
    ensures { IfOk result (λ e. e ≡ event.now) }
{
    match event {
        Event::Write {
            tx,
            page,
            place,
            bytes,
        } => Ok(Event::Write {
            tx: *tx,
            page: *page,
            place: *place,
            bytes: bytes.copy()?,
        }),
        Event::View { live, owners } => Ok(Event::View {
            live: live.copy()?,
            owners: owners.copy()?,
        }),
        bare => Ok(copy_bare(bare)),
    }
}

/// An equal event, of one without lists.
fn copy_bare(event: &Event) -> Event
    requires { IsBare event.now }
    ensures { result ≡ event.now }
{
    match *event {
        Event::Begin { node } => Event::Begin { node },
        Event::Read { tx, page } => Event::Read { tx, page },
        Event::Commit { tx } => Event::Commit { tx },
        Event::Abort { tx } => Event::Abort { tx },
        Event::Deliver { from, to } => Event::Deliver { from, to },
        Event::Evict { node, page } => Event::Evict { node, page },
        Event::Flush { node, page } => Event::Flush { node, page },
        Event::Crash { node } => Event::Crash { node },
        Event::Install { node } => Event::Install { node },
        Event::Reopen => Event::Reopen,
        Event::Arm { node, call, kept } => Event::Arm { node, call, kept },
        Event::Cut { node } => Event::Cut { node },
        Event::Write { .. } => unreachable!(),
        Event::View { .. } => unreachable!(),
    }
}
