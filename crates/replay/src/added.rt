ghost use Rattle.std.specs.Prelude.{◌≡◌, ◌++◌, ◌∷◌, [], List, IfSome, IsSome};
ghost use Rattle.std.specs.Bool.{Decides};
ghost use Rattle.pcl_base.specs.declared.trace.Entry.{Entry as entry};

use pcl_base::{Entry, Event};

/// The last entry of a trace, if it is that of the event. A step adds such an entry, but nothing is said
/// of the trace where a stop has cut the step short.
pub(crate) fn added<'a>(entries: &'a [Entry], event: &Event) -> Option<&'a Entry>
    ensures some { IfSome result (λ e. e.now.event ≡ event.now) }
    ensures there { (before : List entry) (e : entry) → entries.now ≡ before ++ e ∷ [] → e.event ≡ event.now → IfSome result (λ f. f.now ≡ e) }
    ensures found { (before : List entry) (e : entry) → entries.now ≡ before ++ e ∷ [] → e.event ≡ event.now → IsSome result }
{
    match entries.last() {
        Some(entry) => if_of(entry, event),
        None => None,
    }
}

/// An entry, if it is that of the event.
fn if_of<'a>(entry: &'a Entry, event: &Event) -> Option<&'a Entry>
    ensures some { IfSome result (λ e. (e.now ≡ entry.now) × (e.now.event ≡ event.now)) }
    ensures found { entry.now.event ≡ event.now → IsSome result }
{
    if is_of(entry, event) {
        return Some(entry);
    }
    None
}

/// Whether an entry is that of an event.
fn is_of(entry: &Entry, event: &Event) -> bool
    ensures { Decides result (entry.now.event ≡ event.now) }
{
    entry.event == *event
}
