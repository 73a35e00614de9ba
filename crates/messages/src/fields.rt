ghost use Rattle.std.specs.Prelude.{◌≡◌, ℕ, ◌-◌, ◌<◌, ◌≤◌, ◌++◌, ◌∷◌, length, IfOk, IfErr};
ghost use Rattle.std.specs.Int.{w8, w32, w64, to_be_bytes};
ghost use Rattle.text_rules.specs.MessageBytes.{tx_bytes, mode_byte, flag_byte, version_bytes, IsTx, IsPage, IsPageOf, IsRight};
ghost use Rattle.text_rules.specs.FieldBytes.{TooLong, piece, number, at_least, number_from};
ghost use Rattle.text_rules.specs.ReadMessage.{tx_field, page_field, page_of_field, mode_field, flag_field, version_field, right_field, kind_field};
ghost use Rattle.messages.specs.Reading.{stop_of};

use pcl_base::{Config, Mode, NodeNo, PageNo, TxId, Version};
use std::alloc::{AllocError, AllocFailed};
use std::marker::Model;

/// What is wrong with a field.
#[derive(Clone, Copy, Debug, PartialEq, Eq)]
pub enum Fault {
    /// It isn't whole.
    Short,
    /// It is a kind that isn't one.
    BadKind,
    /// Its value isn't allowed.
    BadField,
    /// Bytes follow where nothing more may stand.
    TooLong,
}

/// The first field that failed, by the bytes that were left where it begins.
#[derive(Clone, Copy, Debug, PartialEq, Eq)]
pub struct Stopped {
    pub fault: Fault,
    pub left: usize,
}

/// The bytes that are left to be read.
#[derive(Drop)]
pub struct Fields<'a> {
    left: &'a [u8],
}

impl<'a> Model for Fields<'a> {
    ghost use Rattle.std.specs.Prelude.{List, ℕ};

    ghost Value = { List ℕ };

    ghost view = { λ f. f.left.now };
}

impl<'a> Fields<'a> {
    /// The fields of these bytes.
    pub fn of(bytes: &'a [u8]) -> Fields<'a>
        ensures { result ≡ bytes.now }
    {
        Fields { left: bytes }
    }

    /// A stop at the field that comes next.
    pub fn stop(&self, fault: Fault) -> Stopped
        ensures { result ≡ record { fault = fault; left = length self.now } }
    {
        Stopped {
            fault,
            left: self.left.len(),
        }
    }

    /// The next `count` bytes.
    pub fn piece(&mut self, count: usize) -> Result<&'a [u8], Stopped>
        ensures ok { IfOk result (λ bytes. piece count self.old ≡ Ok (bytes.now, self.new)) }
        ensures err { IfErr result (λ s. piece count self.old ≡ Err (stop_of s)) }
        ensures spelt { IfOk result (λ bytes. self.old ≡ bytes.now ++ self.new) }
        ensures len { IfOk result (λ bytes. length bytes.now ≡ count) }
    {
        if self.left.len() < count {
            return Err(self.stop(Fault::Short));
        }
        let (front, rest) = self.left.split_at(count);
        self.left = rest;
        Ok(front)
    }

    /// A byte within two limits.
    pub fn byte(&mut self, low: u8, high: u8) -> Result<u8, Stopped>
        ensures ok { IfOk result (λ n. number_from low high w8 self.old ≡ Ok (n, self.new)) }
        ensures within { IfOk result (λ n. (low ≤ n) × (n ≤ high)) }
        ensures err { IfErr result (λ s. number_from low high w8 self.old ≡ Err (stop_of s)) }
        ensures spelt { IfOk result (λ n. self.old ≡ n ∷ self.new) }
    {
        let Some((front, rest)) = self.left.split_first_chunk::<1>() else {
            return Err(self.stop(Fault::Short));
        };
        let number = front[0];
        if number < low || high < number {
            return Err(self.stop(Fault::BadField));
        }
        self.left = rest;
        Ok(number)
    }

    /// The kind of a message, 1 to 6.
    pub fn kind(&mut self) -> Result<u8, Stopped>
        ensures ok { IfOk result (λ n. kind_field self.old ≡ Ok (n, self.new)) }
        ensures within { IfOk result (λ n. (1 ≤ n) × (n ≤ 6)) }
        ensures err { IfErr result (λ s. kind_field self.old ≡ Err (stop_of s)) }
        ensures spelt { IfOk result (λ n. self.old ≡ n ∷ self.new) }
    {
        let Some((front, rest)) = self.left.split_first_chunk::<1>() else {
            return Err(self.stop(Fault::Short));
        };
        let number = front[0];
        if number < 1 || 6 < number {
            return Err(self.stop(Fault::BadKind));
        }
        self.left = rest;
        Ok(number)
    }

    /// A number of four bytes.
    pub fn number32(&mut self) -> Result<u32, Stopped>
        ensures ok { IfOk result (λ n. number w32 self.old ≡ Ok (n, self.new)) }
        ensures err { IfErr result (λ s. number w32 self.old ≡ Err (stop_of s)) }
        ensures spelt { IfOk result (λ n. self.old ≡ to_be_bytes w32 n ++ self.new) }
    {
        let Some((front, rest)) = self.left.split_first_chunk::<4>() else {
            return Err(self.stop(Fault::Short));
        };
        let number = u32::from_be_bytes([front[0], front[1], front[2], front[3]]);
        self.left = rest;
        Ok(number)
    }

    /// A number of eight bytes.
    pub fn number64(&mut self) -> Result<u64, Stopped>
        ensures ok { IfOk result (λ n. number w64 self.old ≡ Ok (n, self.new)) }
        ensures err { IfErr result (λ s. number w64 self.old ≡ Err (stop_of s)) }
        ensures spelt { IfOk result (λ n. self.old ≡ to_be_bytes w64 n ++ self.new) }
    {
        let Some((front, rest)) = self.left.split_first_chunk::<8>() else {
            return Err(self.stop(Fault::Short));
        };
        let [a, b, c, d, e, f, g, h] = *front;
        let number = u64::from_be_bytes([a, b, c, d, e, f, g, h]);
        self.left = rest;
        Ok(number)
    }

    /// A number of four bytes, at least 1.
    pub fn counted32(&mut self) -> Result<u32, Stopped>
        ensures ok { IfOk result (λ n. at_least 1 w32 self.old ≡ Ok (n, self.new)) }
        ensures err { IfErr result (λ s. at_least 1 w32 self.old ≡ Err (stop_of s)) }
        ensures spelt { IfOk result (λ n. self.old ≡ to_be_bytes w32 n ++ self.new) }
        ensures least { IfOk result (λ n. 1 ≤ n) }
    {
        let fault = self.stop(Fault::BadField);
        let number = self.number32()?;
        if number < 1 {
            return Err(fault);
        }
        Ok(number)
    }

    /// A number of eight bytes, at least 1.
    pub fn counted64(&mut self) -> Result<u64, Stopped>
        ensures ok { IfOk result (λ n. at_least 1 w64 self.old ≡ Ok (n, self.new)) }
        ensures err { IfErr result (λ s. at_least 1 w64 self.old ≡ Err (stop_of s)) }
        ensures spelt { IfOk result (λ n. self.old ≡ to_be_bytes w64 n ++ self.new) }
        ensures least { IfOk result (λ n. 1 ≤ n) }
    {
        let fault = self.stop(Fault::BadField);
        let number = self.number64()?;
        if number < 1 {
            return Err(fault);
        }
        Ok(number)
    }

    /// A node of the cluster.
    pub fn node(&mut self, config: &Config) -> Result<NodeNo, Stopped>
        ensures ok { IfOk result (λ n. number_from 0 (config.now.nodes - 1) w8 self.old ≡ Ok (n, self.new)) }
        ensures err { IfErr result (λ s. number_from 0 (config.now.nodes - 1) w8 self.old ≡ Err (stop_of s)) }
        ensures spelt { IfOk result (λ n. self.old ≡ n ∷ self.new) }
        ensures is_node { IfOk result (λ n. n < config.now.nodes) }
    {
        self.byte(0, (config.nodes() - 1) as u8)
    }

    /// A transaction.
    pub fn tx(&mut self, config: &Config) -> Result<TxId, Stopped>
        ensures ok { IfOk result (λ t. tx_field config.now self.old ≡ Ok (t, self.new)) }
        ensures err { IfErr result (λ s. tx_field config.now self.old ≡ Err (stop_of s)) }
        ensures spelt { IfOk result (λ t. self.old ≡ tx_bytes t ++ self.new) }
        ensures is_tx { IfOk result (IsTx config.now) }
    {
        let node = self.node(config)?;
        let born = self.counted32()?;
        let serial = self.counted32()?;
        Ok(TxId { node, born, serial })
    }

    /// A page of the database.
    pub fn page(&mut self, config: &Config) -> Result<PageNo, Stopped>
        ensures ok { IfOk result (λ p. page_field config.now self.old ≡ Ok (p, self.new)) }
        ensures err { IfErr result (λ s. page_field config.now self.old ≡ Err (stop_of s)) }
        ensures spelt { IfOk result (λ p. self.old ≡ to_be_bytes w32 p ++ self.new) }
        ensures is_page { IfOk result (IsPage config.now) }
    {
        let fault = self.stop(Fault::BadField);
        let page = self.number32()?;
        if config.pages() <= page {
            return Err(fault);
        }
        Ok(page)
    }

    /// A page of a partition.
    pub fn page_of(&mut self, config: &Config, partition: NodeNo) -> Result<PageNo, Stopped>
        ensures ok { IfOk result (λ p. page_of_field config.now partition self.old ≡ Ok (p, self.new)) }
        ensures err { IfErr result (λ s. page_of_field config.now partition self.old ≡ Err (stop_of s)) }
        ensures spelt { IfOk result (λ p. self.old ≡ to_be_bytes w32 p ++ self.new) }
        ensures is_page { IfOk result (IsPageOf config.now partition) }
    {
        let fault = self.stop(Fault::BadField);
        let page = self.number32()?;
        if config.pages() <= page || config.partition(page) != partition {
            return Err(fault);
        }
        Ok(page)
    }

    /// A mode.
    pub fn mode(&mut self) -> Result<Mode, Stopped>
        ensures ok { IfOk result (λ m. mode_field self.old ≡ Ok (m, self.new)) }
        ensures err { IfErr result (λ s. mode_field self.old ≡ Err (stop_of s)) }
        ensures spelt { IfOk result (λ m. self.old ≡ mode_byte m ∷ self.new) }
    {
        match self.byte(1, 2)? {
            1 => Ok(Mode::Shared),
            _ => Ok(Mode::Exclusive),
        }
    }

    /// A flag.
    pub fn flag(&mut self) -> Result<bool, Stopped>
        ensures ok { IfOk result (λ b. flag_field self.old ≡ Ok (b, self.new)) }
        ensures err { IfErr result (λ s. flag_field self.old ≡ Err (stop_of s)) }
        ensures spelt { IfOk result (λ b. self.old ≡ flag_byte b ∷ self.new) }
    {
        match self.byte(0, 1)? {
            0 => Ok(false),
            _ => Ok(true),
        }
    }

    /// The version of a copy, where a flag says that there is one.
    pub fn version(&mut self) -> Result<Option<Version>, Stopped>
        ensures ok { IfOk result (λ v. version_field self.old ≡ Ok (v, self.new)) }
        ensures err { IfErr result (λ s. version_field self.old ≡ Err (stop_of s)) }
        ensures spelt { IfOk result (λ v. self.old ≡ version_bytes v ++ self.new) }
    {
        if self.flag()? {
            return Ok(Some(self.number64()?));
        }
        Ok(None)
    }

    /// Whether a grant carries a right; it can't where its mode is exclusive.
    pub fn right(&mut self, mode: Mode) -> Result<bool, Stopped>
        ensures ok { IfOk result (λ b. right_field mode self.old ≡ Ok (b, self.new)) }
        ensures err { IfErr result (λ s. right_field mode self.old ≡ Err (stop_of s)) }
        ensures spelt { IfOk result (λ b. self.old ≡ flag_byte b ∷ self.new) }
        ensures is_right { IfOk result (IsRight mode) }
    {
        match mode {
            Mode::Shared => self.flag(),
            Mode::Exclusive => {
                let _zero = self.byte(0, 0)?;
                Ok(false)
            }
        }
    }

    /// Nothing more.
    pub fn end(&self) -> Result<(), Stopped>
        ensures ok { IfOk result (λ u. length self.now ≡ 0) }
        ensures err { IfErr result (λ s. (stop_of s ≡ record { fault = TooLong; left = length self.now }) × (0 < length self.now)) }
    {
        if self.left.is_empty() {
            return Ok(());
        }
        Err(self.stop(Fault::TooLong))
    }
}

/// Why reading gave up.
#[derive(Clone, Copy, Debug, PartialEq, Eq)]
pub enum ReadFault {
    /// A field failed.
    Stopped(Stopped),
    /// Want of memory.
    NoMemory,
}

impl From<Stopped> for ReadFault {
    ghost use Rattle.messages.specs.declared.fields.ReadFault.TheVariants.{Stopped as a_stop};

    ghost from_gives = { λ s e. e ≡ a_stop s };

    fn from(stopped: Stopped) -> ReadFault {
        ReadFault::Stopped(stopped)
    }
}

impl From<AllocError> for ReadFault {
    ghost use Rattle.messages.specs.declared.fields.ReadFault.TheVariants.{NoMemory as no_memory};

    ghost from_gives = { λ _ e. e ≡ no_memory };

    fn from(_fault: AllocError) -> ReadFault {
        ReadFault::NoMemory
    }
}

impl<T: Drop> From<AllocFailed<T>> for ReadFault {
    ghost use Rattle.messages.specs.declared.fields.ReadFault.TheVariants.{NoMemory as no_memory};

    ghost from_gives = { λ _ e. e ≡ no_memory };

    fn from(_fault: AllocFailed<T>) -> ReadFault {
        ReadFault::NoMemory
    }
}
