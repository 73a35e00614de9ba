ghost use Rattle.std.specs.Prelude.{◌≡◌, true, is_some};
ghost use Rattle.std.specs.List.{All};
ghost use Rattle.node_rules.specs.OpenTxs.{held_by};
ghost use Rattle.node_rules.specs.Shelf.{right_on, readers_of};
ghost use Rattle.node_rules.specs.AccessRule.{on_revoke};
ghost use Rattle.home.specs.Parts.{IsPrepared};

use crate::home::Home;
use crate::kinds::set_kinds;
use crate::parts::Parts;
use pcl_base::{Kind, PageNo, ReturnRight};

impl Home {
    /// A revocation of the page's right arrives: the right is spent, the locks of its readers are
    /// registered ones from now on, and the answer names them. `None` exactly where the node has no
    /// right of the page, and nothing changes then. It takes no memory. The access rule is carried
    /// out here.
    pub fn on_revoke(&mut self, page: PageNo) -> Option<ReturnRight>
        ensures { record { answer = result; home = self.new } ≡ on_revoke page self.old }
    {
        self.parts.on_revoke(page)
    }
}

impl Parts {
    /// The same of the parts, where each reader under the right holds the page.
    #[tactic(auto, unfolding(node_rules::specs::AccessRule::on_revoke))]
    pub(crate) fn on_revoke(&mut self, page: PageNo) -> Option<ReturnRight>
        requires { All (λ t. is_some (held_by self.old.home.txs t page) ≡ true) (readers_of (right_on self.old.home.shelf page)) }
        ensures answer { record { answer = result; home = self.new.home } ≡ on_revoke page self.old.home }
        ensures prepared { IsPrepared self.old → IsPrepared self.new }
    {
        match self.shelf.give_back(page) {
            None => None,
            Some(back) => {
                set_kinds(
                    &mut self.txs,
                    back.readers.as_slice(),
                    page,
                    Kind::Registered,
                );
                Some(back)
            }
        }
    }
}
