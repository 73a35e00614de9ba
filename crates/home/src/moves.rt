ghost use Rattle.std.specs.Prelude.{◌≡◌, ◌<◌, IfOk};
ghost use Rattle.std.specs.List.{All};
ghost use Rattle.node_rules.specs.InstallRule.{all_kinds, clean_slots, spend_rights, take_over};
ghost use Rattle.home_laws.specs.Homes.{AreSerials};
ghost use Rattle.home_laws.specs.EndLaws.{given_up};
ghost use Rattle.home.specs.Parts.{IsPrepared};
ghost use Rattle.home.specs.Moves.{Lists, ListsRights, ListsTxs};

use crate::home::Home;
use crate::move_list::MoveList;
use crate::parts::Parts;
use crate::turns::{clean_pages, spend_rights, turn_all};
use pcl_base::{Kind, NoMemory, NodeNo};

impl Home {
    /// What the moves of partitions need. It may serve any number of them, until a transaction begins
    /// or ends or a right is accepted. Nothing changes, also where there is `NoMemory`.
    pub fn move_list(&self) -> Result<MoveList, NoMemory>
        ensures { IfOk result (λ list. Lists list self.now) }
    {
        self.parts.move_list()
    }

    /// The node gets a partition: all locks on its pages become own locks, and the rights on its
    /// pages are spent. It takes no memory. A part of the install rule is carried out here.
    pub fn take_over(&mut self, list: &MoveList, partition: NodeNo)
        requires listed { Lists list.now self.old }
        ensures home { self.new ≡ take_over partition self.old }
        ensures listed { Lists list.now self.new }
    {
        self.parts.take_over(list, partition);
    }

    /// The node loses a partition: all locks on its pages become registered ones, and the copies of
    /// its pages are clean from now on. It takes no memory. A part of the install rule is carried
    /// out here.
    pub fn give_up(&mut self, list: &MoveList, partition: NodeNo)
        requires listed { Lists list.now self.old }
        ensures home { self.new ≡ given_up partition self.old }
        ensures listed { Lists list.now self.new }
    {
        self.parts.give_up(list, partition);
    }
}

impl Parts {
    /// The names of the open transactions, and the rights.
    fn move_list(&self) -> Result<MoveList, NoMemory>
        ensures { IfOk result (λ list. Lists list self.now.home) }
    {
        let names = self.txs.ids()?;
        let rights = self.shelf.rights()?;
        Ok(MoveList { names, rights })
    }

    /// The node gets a partition, where the serials of the open transactions rise.
    fn take_over(&mut self, list: &MoveList, partition: NodeNo)
        requires serials { AreSerials 0 self.old.home.txs.last self.old.home.txs.txs }
        requires txs { ListsTxs list.now self.old.home.txs }
        requires rights { ListsRights list.now self.old.home.shelf }
        ensures home { self.new.home ≡ take_over partition self.old.home }
        ensures prepared { IsPrepared self.old → IsPrepared self.new }
    {
        self.turn_all(list, partition, Kind::Own);
        self.spend_rights(list, partition);
    }

    /// The node loses a partition, where the serials of the open transactions rise and each slot is of
    /// a page of the database.
    fn give_up(&mut self, list: &MoveList, partition: NodeNo)
        requires serials { AreSerials 0 self.old.home.txs.last self.old.home.txs.txs }
        requires below { All (λ s. s.page < self.old.home.config.pages) self.old.home.pool.slots }
        requires txs { ListsTxs list.now self.old.home.txs }
        ensures home { self.new.home ≡ given_up partition self.old.home }
        ensures prepared { IsPrepared self.old → IsPrepared self.new }
    {
        self.turn_all(list, partition, Kind::Registered);
        self.clean_pages(partition);
    }

    /// All locks on pages of a partition get another kind, where the serials of the open transactions
    /// rise.
    fn turn_all(&mut self, list: &MoveList, partition: NodeNo, kind: Kind)
        requires serials { AreSerials 0 self.old.home.txs.last self.old.home.txs.txs }
        requires txs { ListsTxs list.now self.old.home.txs }
        ensures { self.new ≡ record self.old { home = all_kinds partition kind self.old.home } }
    {
        let names = list.names.as_slice();
        turn_all(&mut self.txs, names, &self.config, partition, kind);
    }

    /// The rights on pages of a partition are spent.
    fn spend_rights(&mut self, list: &MoveList, partition: NodeNo)
        requires { ListsRights list.now self.old.home.shelf }
        ensures home { self.new.home ≡ spend_rights partition self.old.home }
        ensures prepared { IsPrepared self.old → IsPrepared self.new }
    {
        let rights = list.rights.as_slice();
        spend_rights(&mut self.shelf, rights, &self.config, partition);
    }

    /// The copies of the pages of a partition are clean, where each slot is of a page of the database.
    fn clean_pages(&mut self, partition: NodeNo)
        requires { All (λ s. s.page < self.old.home.config.pages) self.old.home.pool.slots }
        ensures { self.new ≡ record self.old { home = record (self.old.home) { pool = record (self.old.home.pool) { slots = clean_slots self.old.home.config partition self.old.home.pool.slots } } } }
    {
        clean_pages(&mut self.pool, &self.config, partition);
    }
}
