ghost use Rattle.std.specs.Prelude.{◌≡◌, ◌&&◌, not, true, slice_set, OnOk};
ghost use Rattle.run_rules.specs.Words.{pick};
ghost use Rattle.run_rules.specs.Views.{count_from, first, is_live, next, reopen};
ghost use Rattle.run_rules.specs.Ledger.{all_nodes, install, last_view, raise, returning, view_of_epoch};
ghost use Rattle.run_rules.specs.Taking.{add_view, install_by, install_epoch, made_view, reopen_by};

use crate::ledger::Ledger;
use crate::replies::any_viewed;
use crate::seen::Seen;
use pcl_base::{Entry, Event, Items, NoMemory, NodeNo};

/// Views that are made, and views that are installed.
impl<'a> Ledger<'a> {
    /// A view was made.
    pub(crate) fn hear_view(&mut self, e: &Entry) -> Result<(), NoMemory>
        ensures { OnOk result (self.new ≡ made_view e.now e.now.event self.old) }
    {
        match &e.event {
            Event::View { live, owners } => {
                if any_viewed(e.replies.as_slice()) {
                    return self.make_view(live, owners);
                }
                Ok(())
            }
            _ => Ok(()),
        }
    }

    fn make_view(&mut self, live: &Items<bool>, owners: &Items<NodeNo>) -> Result<(), NoMemory>
        ensures { OnOk result (self.new ≡ add_view (λ v. returning (last_view self.old) v (all_nodes self.old)) (next self.old.config (last_view self.old) live.now owners.now) self.old) }
    {
        match self.views.next(live, owners)? {
            None => Ok(()),
            Some(view) => {
                let nodes = self.views.config().nodes() as u8;
                raise_returning(self.up.as_mut_slice(), self.views.last(), &view, nodes);
                self.views.push(view)
            }
        }
    }

    pub(crate) fn hear_reopened(&mut self, event: &Event) -> Result<(), NoMemory>
        ensures { OnOk result (self.new ≡ reopen_by event.now self.old) }
    {
        match event {
            Event::Reopen => self.reopen(),
            _ => Ok(()),
        }
    }

    /// All nodes begin anew.
    fn reopen(&mut self) -> Result<(), NoMemory>
        ensures { OnOk result (self.new ≡ add_view (λ v. all_nodes self.old) (reopen self.old.config (last_view self.old)) self.old) }
    {
        match self.views.reopened()? {
            None => Ok(()),
            Some(view) => {
                let nodes = self.views.config().nodes() as u8;
                raise_all(self.up.as_mut_slice(), nodes);
                self.views.push(view)
            }
        }
    }

    pub(crate) fn hear_installed(
        &mut self,
        event: &Event,
        n: Option<NodeNo>,
        epoch: u32,
    ) -> Result<(), NoMemory>
        ensures { OnOk result (self.new ≡ install_by event.now n epoch self.old) }
    {
        match event {
            Event::Install { .. } => self.install_at(n, epoch),
            _ => Ok(()),
        }
    }

    fn install_at(&mut self, n: Option<NodeNo>, epoch: u32) -> Result<(), NoMemory>
        ensures { OnOk result (self.new ≡ install_epoch n epoch self.old) }
    {
        match n {
            Some(node) => self.install(node, epoch),
            None => Ok(()),
        }
    }

    /// A node has installed the view of an epoch.
    #[tactic(auto, unfolding(run_rules::specs::Ledger::install))]
    fn install(&mut self, n: NodeNo, epoch: u32) -> Result<(), NoMemory>
        ensures { OnOk result (self.new ≡ install n (view_of_epoch (first self.old.config) self.old.views epoch) self.old) }
    {
        let view = self.views.of_epoch(epoch).copy()?;
        self.add_epoch(n, view.epoch())?;
        self.drop_new_wants(n, &view);
        self.drop_new_rights(n, &view);
        self.put_seen(n, view);
        Ok(())
    }
}

fn raise_if(up: &mut [bool], n: NodeNo, raised: bool)
    ensures { up.new ≡ pick raised (slice_set up.old n true) up.old }
{
    if !raised {
        return;
    }
    if (n as usize) < up.len() {
        up[n as usize] = true;
    }
}

/// Whether a node is live in a view and wasn't before.
fn is_returning(before: &Seen, now: &Seen, n: NodeNo) -> bool
    ensures { result ≡ (is_live now.now.live n && not (is_live before.now.live n)) }
{
    now.live(n) && !before.live(n)
}

/// The nodes that are live in a view and weren't before are up.
fn raise_returning(up: &mut [bool], before: &Seen, now: &Seen, nodes: u8)
    ensures { up.new ≡ raise (returning before.now now.now (count_from 0 nodes)) up.old }
{
    for n in 0..nodes {
        raise_if(up, n, is_returning(before, now, n));
    }
}

fn raise_all(up: &mut [bool], nodes: u8)
    ensures { up.new ≡ raise (count_from 0 nodes) up.old }
{
    for n in 0..nodes {
        raise_if(up, n, true);
    }
}
