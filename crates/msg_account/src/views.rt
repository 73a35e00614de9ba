ghost use Rattle.std.specs.Prelude.{◌≡◌, ◌+◌, ◌-◌, ◌++◌, ◌∷◌, [], cond, nat_lt, slice_index_or, length, IfOk, OnOk, IfSome};
ghost use Rattle.run_rules.specs.Views.{first, next, reopen};
ghost use Rattle.run_rules.specs.Ledger.{last_or, view_of_epoch};
ghost use Rattle.msg_account.specs.Kept.{made_of};

use crate::seen::Seen;
use authority_map::{View, ViewFault};
use pcl_base::{Config, Items, NoMemory, NodeNo};
use std::alloc::Global;
use std::marker::Model;

/// The views that were made, found by their epochs.
///
/// Contracts see the configuration and the views in order.
#[derive(Debug, Drop)]
pub(crate) struct Views {
    alloc: Global,
    config: Config,
    first: Seen,
    later: Vec<Seen>,
}

impl Model for Views {
    ghost use Rattle.std.specs.Prelude.{◌∷◌};
    ghost use Rattle.msg_account.specs.Kept.{Made, AreMade};

    ghost Value = { Made };

    ghost view = { λ v. record { config = v.config; views = v.first ∷ v.later.items } };

    ghost invariant = { λ v. AreMade v.config v.first v.later.items };
}

impl Views {
    /// View 1 of a configuration.
    pub(crate) fn open(alloc: Global, config: &Config) -> Result<Views, NoMemory>
        ensures { IfOk result (λ v. v ≡ record { config = config.now; views = first config.now ∷ [] }) }
    {
        let view = View::first(alloc, config)?;
        Ok(Views {
            alloc,
            config: *config,
            first: Seen::of(view, config.nodes()),
            later: Vec::new(alloc),
        })
    }

    /// The configuration.
    pub(crate) fn config(&self) -> Config
        ensures { result ≡ self.now.config }
    {
        self.config
    }

    /// View 1.
    pub(crate) fn first(&self) -> &Seen
        ensures { result.now ≡ first self.now.config }
    {
        &self.first
    }

    /// The view that was made last.
    pub(crate) fn last(&self) -> &Seen
        ensures value { result.now ≡ last_or (first self.now.config) self.now.views }
        ensures nodes { length result.now.live ≡ self.now.config.nodes }
        ensures turn { result.now.epoch ≡ length self.now.views }
    {
        last_of(&self.first, self.later.as_slice())
    }

    /// The view of an epoch; view 1 where no view of it was made.
    pub(crate) fn of_epoch(&self, epoch: u32) -> &Seen
        ensures value { result.now ≡ view_of_epoch (first self.now.config) self.now.views epoch }
        ensures nodes { length result.now.live ≡ self.now.config.nodes }
    {
        at_epoch(&self.first, self.later.as_slice(), epoch)
    }

    /// The view that these live nodes and owners make after the last one, if they make one.
    pub(crate) fn next(
        &self,
        live: &Items<bool>,
        owners: &Items<NodeNo>,
    ) -> Result<Option<Seen>, NoMemory>
        ensures made { IfOk result (λ v. v ≡ made_of (next self.now.config (last_or (first self.now.config) self.now.views) live.now owners.now)) }
        ensures turn { IfOk result (λ o. IfSome o (λ v. (length v.live ≡ self.now.config.nodes) × (v.epoch ≡ length self.now.views + 1))) }
    {
        let live = Vec::from_slice(self.alloc, live.as_slice())?;
        let owners = Vec::from_slice(self.alloc, owners.as_slice())?;
        match self
            .last()
            .view()
            .next(self.alloc, &self.config, &live, &owners)
        {
            Ok(view) => Ok(Some(Seen::of(view, self.config.nodes()))),
            Err(ViewFault::BadView { .. }) => Ok(None),
            Err(ViewFault::NoMemory) => Err(NoMemory),
        }
    }

    /// The view in which everything begins anew after the last one, if there is one.
    pub(crate) fn reopened(&self) -> Result<Option<Seen>, NoMemory>
        ensures made { IfOk result (λ v. v ≡ made_of (reopen self.now.config (last_or (first self.now.config) self.now.views))) }
        ensures turn { IfOk result (λ o. IfSome o (λ v. (length v.live ≡ self.now.config.nodes) × (v.epoch ≡ length self.now.views + 1))) }
    {
        match self.last().view().reopen(self.alloc, &self.config) {
            Ok(view) => Ok(Some(Seen::of(view, self.config.nodes()))),
            Err(ViewFault::BadView { .. }) => Ok(None),
            Err(ViewFault::NoMemory) => Err(NoMemory),
        }
    }

    /// Puts a further view last.
    pub(crate) fn push(&mut self, view: Seen) -> Result<(), NoMemory>
        requires nodes { length view.live ≡ self.old.config.nodes }
        requires turn { view.epoch ≡ length self.old.views + 1 }
        ensures { OnOk result (self.new ≡ record { config = self.old.config; views = self.old.views ++ view ∷ [] }) }
    {
        Ok(self.later.push(view)?)
    }
}

/// The last one of view 1 and the later ones.
fn last_of<'a>(first: &'a Seen, later: &'a [Seen]) -> &'a Seen
    ensures { result.now ≡ last_or first.now later.now }
{
    if later.is_empty() {
        return first;
    }
    &later[later.len() - 1]
}

/// The one of an epoch, where the later ones begin with epoch 2.
fn at_epoch<'a>(first: &'a Seen, later: &'a [Seen], epoch: u32) -> &'a Seen
    ensures { result.now ≡ cond (nat_lt epoch 2) first.now (slice_index_or later.now (epoch - 2) first.now) }
{
    if epoch < 2 {
        return first;
    }
    match later.get((epoch - 2) as usize) {
        Some(view) => view,
        None => first,
    }
}
