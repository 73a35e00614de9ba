ghost use Rattle.std.specs.Prelude.{◌≡◌, ℕ, ◌-◌, ◌<◌, ◌≤◌, ◌++◌, ◌∷◌, true, length, IfOk, IfErr};
ghost use Rattle.std.specs.Int.{w8, w32, to_be_bytes};
ghost use Rattle.pcl_base.specs.Limits.{is_between};
ghost use Rattle.text_rules.specs.MessageBytes.{flag_byte};
ghost use Rattle.text_rules.specs.FieldBytes.{TooLong, number, at_least};
ghost use Rattle.frame_rules.specs.Frames.{is_live_node};
ghost use Rattle.frame_rules.specs.ReadFrame.{sender_field, live_field, owner_field, epoch_field};
ghost use Rattle.node_frames.specs.Seen.{stop_of};

use crate::fault::FieldFault;
use pcl_base::{Config, NodeNo};
use std::alloc::{AllocError, AllocFailed};
use std::marker::Model;

/// The first field that failed, by the bytes that were left where it begins.
#[derive(Clone, Copy, Debug, PartialEq, Eq)]
pub struct Stopped {
    pub fault: FieldFault,
    pub left: usize,
}

/// The bytes that are left to be read.
#[derive(Drop)]
pub struct Fields<'a> {
    left: &'a [u8],
}

impl<'a> Model for Fields<'a> {
    ghost use Rattle.std.specs.Prelude.{List, ℕ};

    ghost Value = { List ℕ };

    ghost view = { λ f. f.left.now };
}

impl<'a> Fields<'a> {
    /// Begins to read fields at the first of these bytes.
    pub fn of(bytes: &'a [u8]) -> Fields<'a>
        ensures { result ≡ bytes.now }
    {
        Fields { left: bytes }
    }

    /// The bytes behind the fields that were read, for a reader of its own.
    pub fn left(&self) -> &'a [u8]
        ensures { result.now ≡ self.now }
    {
        self.left
    }

    /// A stop at the field that comes next.
    fn stop(&self, fault: FieldFault) -> Stopped
        ensures { result ≡ record { fault = fault; left = length self.now } }
    {
        Stopped {
            fault,
            left: self.left.len(),
        }
    }

    /// The next byte, of which the callers make a node or a flag; a stop where none is left.
    fn byte(&mut self) -> Result<u8, Stopped>
        ensures ok { IfOk result (λ n. number w8 self.old ≡ Ok (n, self.new)) }
        ensures err { IfErr result (λ s. number w8 self.old ≡ Err (stop_of s)) }
        ensures spelt { IfOk result (λ n. self.old ≡ n ∷ self.new) }
    {
        let Some((front, rest)) = self.left.split_first_chunk::<1>() else {
            return Err(self.stop(FieldFault::Short));
        };
        self.left = rest;
        Ok(front[0])
    }

    /// The next four bytes as an epoch, the highest first; a stop where fewer are left.
    fn number32(&mut self) -> Result<u32, Stopped>
        ensures ok { IfOk result (λ n. number w32 self.old ≡ Ok (n, self.new)) }
        ensures err { IfErr result (λ s. number w32 self.old ≡ Err (stop_of s)) }
        ensures spelt { IfOk result (λ n. self.old ≡ to_be_bytes w32 n ++ self.new) }
    {
        let Some((front, rest)) = self.left.split_first_chunk::<4>() else {
            return Err(self.stop(FieldFault::Short));
        };
        let number = u32::from_be_bytes([front[0], front[1], front[2], front[3]]);
        self.left = rest;
        Ok(number)
    }

    /// The sender of a message: a node of the cluster that isn't `me`.
    pub fn sender(&mut self, config: &Config, me: NodeNo) -> Result<NodeNo, Stopped>
        ensures ok { IfOk result (λ n. sender_field config.now me self.old ≡ Ok (n, self.new)) }
        ensures err { IfErr result (λ s. sender_field config.now me self.old ≡ Err (stop_of s)) }
        ensures spelt { IfOk result (λ n. self.old ≡ n ∷ self.new) }
        ensures is_node { IfOk result (λ n. n < config.now.nodes) }
        ensures is_other { IfOk result (λ n. ¬ (n ≡ me)) }
    {
        let fault = self.stop(FieldFault::BadField);
        let node = self.byte()?;
        if config.nodes() <= node as u32 || node == me {
            return Err(fault);
        }
        Ok(node)
    }

    /// The epoch of a view, at least 1.
    pub fn first_epoch(&mut self) -> Result<u32, Stopped>
        ensures ok { IfOk result (λ n. at_least 1 w32 self.old ≡ Ok (n, self.new)) }
        ensures err { IfErr result (λ s. at_least 1 w32 self.old ≡ Err (stop_of s)) }
        ensures spelt { IfOk result (λ n. self.old ≡ to_be_bytes w32 n ++ self.new) }
        ensures least { IfOk result (λ n. 1 ≤ n) }
    {
        let fault = self.stop(FieldFault::BadField);
        let number = self.number32()?;
        if number < 1 {
            return Err(fault);
        }
        Ok(number)
    }

    /// The live flag of a node, which is set where it is that of `me`.
    pub fn live(&mut self, me: NodeNo, node: NodeNo) -> Result<bool, Stopped>
        ensures ok { IfOk result (λ b. live_field me node self.old ≡ Ok (b, self.new)) }
        ensures err { IfErr result (λ s. live_field me node self.old ≡ Err (stop_of s)) }
        ensures spelt { IfOk result (λ b. self.old ≡ flag_byte b ∷ self.new) }
        ensures me { IfOk result (λ b. node ≡ me → b ≡ true) }
    {
        let fault = self.stop(FieldFault::BadField);
        match self.byte()? {
            0 if node != me => Ok(false),
            1 => Ok(true),
            _ => Err(fault),
        }
    }

    /// An owner, which is one of the live nodes.
    pub fn owner(&mut self, live: &[bool]) -> Result<NodeNo, Stopped>
        ensures ok { IfOk result (λ n. owner_field live.now self.old ≡ Ok (n, self.new)) }
        ensures err { IfErr result (λ s. owner_field live.now self.old ≡ Err (stop_of s)) }
        ensures spelt { IfOk result (λ n. self.old ≡ n ∷ self.new) }
        ensures is_live { IfOk result (λ n. is_live_node live.now n ≡ true) }
    {
        let fault = self.stop(FieldFault::BadField);
        let node = self.byte()?;
        if live.len() <= node as usize || !live[node as usize] {
            return Err(fault);
        }
        Ok(node)
    }

    /// An epoch from 1 to that of the view.
    pub fn epoch(&mut self, most: u32) -> Result<u32, Stopped>
        ensures ok { IfOk result (λ n. epoch_field most self.old ≡ Ok (n, self.new)) }
        ensures err { IfErr result (λ s. epoch_field most self.old ≡ Err (stop_of s)) }
        ensures spelt { IfOk result (λ n. self.old ≡ to_be_bytes w32 n ++ self.new) }
        ensures within { IfOk result (λ n. is_between 1 most n ≡ true) }
    {
        let fault = self.stop(FieldFault::BadField);
        let number = self.number32()?;
        if number < 1 || most < number {
            return Err(fault);
        }
        Ok(number)
    }

    /// Refuses bytes behind the last field, so that a body spells one frame alone.
    pub fn end(&self) -> Result<(), Stopped>
        ensures ok { IfOk result (λ u. length self.now ≡ 0) }
        ensures err { IfErr result (λ s. (stop_of s ≡ record { fault = TooLong; left = length self.now }) × (0 < length self.now)) }
    {
        if self.left.is_empty() {
            return Ok(());
        }
        Err(self.stop(FieldFault::TooLong))
    }
}

/// Why reading gave up.
#[derive(Clone, Copy, Debug, PartialEq, Eq)]
pub enum ReadFault {
    /// A field failed, which makes the frame bad.
    Stopped(Stopped),
    /// Want of memory, which tells nothing of the frame.
    NoMemory,
}

impl From<Stopped> for ReadFault {
    ghost use Rattle.node_frames.specs.declared.fields.ReadFault.TheVariants.{Stopped as a_stop};

    ghost from_gives = { λ s e. e ≡ a_stop s };

    fn from(stopped: Stopped) -> ReadFault {
        ReadFault::Stopped(stopped)
    }
}

impl From<AllocError> for ReadFault {
    ghost use Rattle.node_frames.specs.declared.fields.ReadFault.TheVariants.{NoMemory as no_memory};

    ghost from_gives = { λ _ e. e ≡ no_memory };

    fn from(_fault: AllocError) -> ReadFault {
        ReadFault::NoMemory
    }
}

impl<T: Drop> From<AllocFailed<T>> for ReadFault {
    ghost use Rattle.node_frames.specs.declared.fields.ReadFault.TheVariants.{NoMemory as no_memory};

    ghost from_gives = { λ _ e. e ≡ no_memory };

    fn from(_fault: AllocFailed<T>) -> ReadFault {
        ReadFault::NoMemory
    }
}
