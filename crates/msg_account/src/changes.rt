ghost use Rattle.std.specs.Prelude.{◌≡◌, true, false, ◌++◌, ◌∷◌, [], not, slice_set, OnOk, map};
ghost use Rattle.std.specs.List.{filter, list_any};
ghost use Rattle.run_rules.specs.Ledger.{installed_at, is_new, is_out, is_want, put_rights, put_wanted, rights_at, wanted_at, wants_page};
ghost use Rattle.run_rules.specs.Taking.{out_of, want_of};
ghost use Rattle.run_rules.specs.Causes.{asked_back, may_revoke, without_first};

use crate::ledger::Ledger;
use crate::seen::Seen;
use crate::wants::Want;
use pcl_base::{NoMemory, NodeNo, PageNo, ReportRight, ReportWait, TxId};

/// What changes at one node; at a node that isn't there nothing does.
impl<'a> Ledger<'a> {
    pub(crate) fn put_seen(&mut self, n: NodeNo, view: Seen)
        ensures { self.new ≡ record self.old { seen = slice_set self.old.seen n view } }
    {
        match self.seen.get_mut(n as usize) {
            Some(place) => *place = view,
            None => {}
        }
    }

    pub(crate) fn add_epoch(&mut self, n: NodeNo, epoch: u32) -> Result<(), NoMemory>
        ensures { OnOk result (self.new ≡ record self.old { installed = slice_set self.old.installed n (epoch ∷ installed_at self.old n) }) }
    {
        match self.installed.get_mut(n as usize) {
            Some(epochs) => epochs.push(epoch),
            None => Ok(()),
        }
    }

    pub(crate) fn drop_new_wants(&mut self, n: NodeNo, view: &Seen)
        ensures { self.new ≡ put_wanted n (filter (λ w. not (is_new view.now self.old.config n w.page)) (wanted_at self.old n)) self.old }
    {
        let config = self.views.config();
        match self.wanted.get_mut(n as usize) {
            Some(wants) => wants.drop_new(&config, view, n),
            None => {}
        }
    }

    pub(crate) fn drop_new_rights(&mut self, n: NodeNo, view: &Seen)
        ensures { self.new ≡ put_rights n (filter (λ r. not (is_new view.now self.old.config n r.page)) (rights_at self.old n)) self.old }
    {
        let config = self.views.config();
        match self.rights.get_mut(n as usize) {
            Some(rights) => rights.drop_new(&config, view, n),
            None => {}
        }
    }

    pub(crate) fn push_want(&mut self, n: NodeNo, want: Want) -> Result<(), NoMemory>
        ensures { OnOk result (self.new ≡ put_wanted n (wanted_at self.old n ++ want ∷ []) self.old) }
    {
        match self.wanted.get_mut(n as usize) {
            Some(wants) => wants.push(want),
            None => Ok(()),
        }
    }

    pub(crate) fn push_waits(&mut self, n: NodeNo, waits: &[ReportWait]) -> Result<(), NoMemory>
        ensures { OnOk result (self.new ≡ put_wanted n (wanted_at self.old n ++ map want_of waits.now) self.old) }
    {
        match self.wanted.get_mut(n as usize) {
            Some(wants) => wants.push_waits(waits),
            None => Ok(()),
        }
    }

    pub(crate) fn drop_wants(&mut self, n: NodeNo, tx: TxId, page: PageNo)
        ensures { self.new ≡ put_wanted n (filter (λ w. not (wants_page tx page w)) (wanted_at self.old n)) self.old }
    {
        match self.wanted.get_mut(n as usize) {
            Some(wants) => wants.drop_page(tx, page),
            None => {}
        }
    }

    /// Takes the first request or item of a want out; false where there is none.
    pub(crate) fn take_want(&mut self, n: NodeNo, want: Want) -> bool
        ensures found { result ≡ list_any (is_want want.tx want.page want.mode) (wanted_at self.old n) }
        ensures left { self.new ≡ put_wanted n (without_first (is_want want.tx want.page want.mode) (wanted_at self.old n)) self.old }
    {
        match self.wanted.get_mut(n as usize) {
            Some(wants) => wants.take_first(want.tx(), want.page(), want.mode()),
            None => false,
        }
    }

    pub(crate) fn push_right(&mut self, n: NodeNo, to: NodeNo, page: PageNo) -> Result<(), NoMemory>
        ensures { OnOk result (self.new ≡ put_rights n (rights_at self.old n ++ record { node = to; page = page; revoked = false } ∷ []) self.old) }
    {
        match self.rights.get_mut(n as usize) {
            Some(rights) => rights.push(to, page),
            None => Ok(()),
        }
    }

    pub(crate) fn push_rights(
        &mut self,
        n: NodeNo,
        from: NodeNo,
        items: &[ReportRight],
    ) -> Result<(), NoMemory>
        ensures { OnOk result (self.new ≡ put_rights n (rights_at self.old n ++ map (out_of from) items.now) self.old) }
    {
        match self.rights.get_mut(n as usize) {
            Some(rights) => rights.push_rights(from, items),
            None => Ok(()),
        }
    }

    pub(crate) fn drop_rights(&mut self, n: NodeNo, from: NodeNo, page: PageNo)
        ensures { self.new ≡ put_rights n (filter (λ r. not (is_out from page r)) (rights_at self.old n)) self.old }
    {
        match self.rights.get_mut(n as usize) {
            Some(rights) => rights.drop_right(from, page),
            None => {}
        }
    }

    /// Asks a right of a node on a page back; false where there is none to ask back.
    pub(crate) fn revoke_right(&mut self, n: NodeNo, to: NodeNo, page: PageNo) -> bool
        ensures found { result ≡ list_any (may_revoke to page) (rights_at self.old n) }
        ensures changed { result ≡ true → self.new ≡ asked_back n to page self.old }
    {
        match self.rights.get_mut(n as usize) {
            Some(rights) => rights.revoke(to, page),
            None => false,
        }
    }
}
