ghost use Rattle.std.specs.Prelude.{◌≡◌, ℕ, ◌<◌, ◌≤◌, ◌^◌, length, IfOk, IfErr, Ok, Err};
ghost use Rattle.std.specs.Int.{w8, w16, w32, w64};
ghost use Rattle.text_rules.specs.FieldBytes.{TooLong, BadField as bad_field, piece, number, at_least, number_from, allowed};
ghost use Rattle.text_rules.specs.LogRecord.{is_mark};
ghost use Rattle.redo_log.specs.Stopping.{stop_of};

use std::alloc::{AllocError, AllocFailed};
use std::marker::Model;

/// What is wrong with a field.
#[derive(Clone, Copy, Debug, PartialEq, Eq)]
pub enum Fault {
    /// It isn't whole.
    Short,
    /// Its value isn't allowed.
    BadField,
    /// Bytes follow where nothing more may stand.
    TooLong,
}

/// The first field that failed, by the bytes that were left where it begins.
#[derive(Clone, Copy, Debug, PartialEq, Eq)]
pub struct Stopped {
    pub fault: Fault,
    pub left: usize,
}

/// The bytes that are left to be read.
#[derive(Drop)]
pub struct Fields<'a> {
    left: &'a [u8],
}

impl<'a> Model for Fields<'a> {
    ghost use Rattle.std.specs.Prelude.{List, ℕ};

    ghost Value = { List ℕ };

    ghost view = { λ f. f.left.now };
}

impl<'a> Fields<'a> {
    /// The fields of these bytes.
    pub fn of(bytes: &'a [u8]) -> Fields<'a>
        ensures { result ≡ bytes.now }
    {
        Fields { left: bytes }
    }

    /// The bytes that are left.
    pub fn rest(&self) -> &'a [u8]
        ensures { result.now ≡ self.now }
    {
        self.left
    }

    /// A stop at the field that comes next.
    pub fn stop(&self, fault: Fault) -> Stopped
        ensures { result ≡ record { fault = fault; left = length self.now } }
    {
        Stopped {
            fault,
            left: self.left.len(),
        }
    }

    /// The next `count` bytes.
    pub fn piece(&mut self, count: usize) -> Result<&'a [u8], Stopped>
        ensures ok { IfOk result (λ bytes. piece count self.old ≡ Ok (bytes.now, self.new)) }
        ensures length { IfOk result (λ bytes. length bytes.now ≡ count) }
        ensures err { IfErr result (λ s. piece count self.old ≡ Err (stop_of s)) }
    {
        if self.left.len() < count {
            return Err(self.stop(Fault::Short));
        }
        let (front, rest) = self.left.split_at(count);
        self.left = rest;
        Ok(front)
    }

    /// The byte that tells node and format.
    pub fn mark(&mut self, nodes: u8) -> Result<u8, Stopped>
        requires { nodes ≤ 16 }
        ensures ok { IfOk result (λ n. allowed bad_field (is_mark nodes) (number w8) self.old ≡ Ok (n, self.new)) }
        ensures err { IfErr result (λ s. allowed bad_field (is_mark nodes) (number w8) self.old ≡ Err (stop_of s)) }
    {
        let Some((front, rest)) = self.left.split_first_chunk::<1>() else {
            return Err(self.stop(Fault::Short));
        };
        let number = front[0];
        if number < nodes || (128 <= number && number < 128 + nodes) {
            self.left = rest;
            return Ok(number);
        }
        Err(self.stop(Fault::BadField))
    }

    /// A number of two bytes within two limits.
    pub fn between16(&mut self, low: u32, high: u32) -> Result<u16, Stopped>
        ensures ok { IfOk result (λ n. number_from low high w16 self.old ≡ Ok (n, self.new)) }
        ensures within { IfOk result (λ n. (low ≤ n) × (n ≤ high)) }
        ensures err { IfErr result (λ s. number_from low high w16 self.old ≡ Err (stop_of s)) }
    {
        let Some((front, rest)) = self.left.split_first_chunk::<2>() else {
            return Err(self.stop(Fault::Short));
        };
        let number = u16::from_be_bytes(*front);
        if (number as u32) < low || high < number as u32 {
            return Err(self.stop(Fault::BadField));
        }
        self.left = rest;
        Ok(number)
    }

    /// A number of two bytes, at least 1.
    pub fn counted16(&mut self) -> Result<u16, Stopped>
        ensures ok { IfOk result (λ n. at_least 1 w16 self.old ≡ Ok (n, self.new)) }
        ensures err { IfErr result (λ s. at_least 1 w16 self.old ≡ Err (stop_of s)) }
    {
        let Some((front, rest)) = self.left.split_first_chunk::<2>() else {
            return Err(self.stop(Fault::Short));
        };
        let number = u16::from_be_bytes(*front);
        if number < 1 {
            return Err(self.stop(Fault::BadField));
        }
        self.left = rest;
        Ok(number)
    }

    /// A number of four bytes.
    pub fn number32(&mut self) -> Result<u32, Stopped>
        ensures ok { IfOk result (λ n. number w32 self.old ≡ Ok (n, self.new)) }
        ensures err { IfErr result (λ s. number w32 self.old ≡ Err (stop_of s)) }
    {
        let Some((front, rest)) = self.left.split_first_chunk::<4>() else {
            return Err(self.stop(Fault::Short));
        };
        self.left = rest;
        Ok(u32::from_be_bytes(*front))
    }

    /// A number of four bytes within two limits.
    pub fn between32(&mut self, low: u32, high: u32) -> Result<u32, Stopped>
        ensures ok { IfOk result (λ n. number_from low high w32 self.old ≡ Ok (n, self.new)) }
        ensures within { IfOk result (λ n. (low ≤ n) × (n ≤ high)) }
        ensures err { IfErr result (λ s. number_from low high w32 self.old ≡ Err (stop_of s)) }
    {
        let fault = self.stop(Fault::BadField);
        let number = self.number32()?;
        if number < low || high < number {
            return Err(fault);
        }
        Ok(number)
    }

    /// A number of four bytes, at least 1.
    pub fn counted32(&mut self) -> Result<u32, Stopped>
        ensures ok { IfOk result (λ n. at_least 1 w32 self.old ≡ Ok (n, self.new)) }
        ensures err { IfErr result (λ s. at_least 1 w32 self.old ≡ Err (stop_of s)) }
    {
        let fault = self.stop(Fault::BadField);
        let number = self.number32()?;
        if number < 1 {
            return Err(fault);
        }
        Ok(number)
    }

    /// A number of eight bytes, at least 1.
    pub fn counted64(&mut self) -> Result<u64, Stopped>
        ensures ok { IfOk result (λ n. at_least 1 w64 self.old ≡ Ok (n, self.new)) }
        ensures err { IfErr result (λ s. at_least 1 w64 self.old ≡ Err (stop_of s)) }
    {
        let Some((front, rest)) = self.left.split_first_chunk::<8>() else {
            return Err(self.stop(Fault::Short));
        };
        let number = u64::from_be_bytes(*front);
        if number < 1 {
            return Err(self.stop(Fault::BadField));
        }
        self.left = rest;
        Ok(number)
    }

    /// Nothing more.
    pub fn end(&self) -> Result<(), Stopped>
        ensures ok { IfOk result (λ u. length self.now ≡ 0) }
        ensures err { IfErr result (λ s. (stop_of s ≡ record { fault = TooLong; left = length self.now }) × (0 < length self.now)) }
    {
        if self.left.is_empty() {
            return Ok(());
        }
        Err(self.stop(Fault::TooLong))
    }
}

/// Why reading gave up.
#[derive(Clone, Copy, Debug, PartialEq, Eq)]
pub enum ReadFault {
    /// A field failed.
    Stopped(Stopped),
    /// Want of memory.
    NoMemory,
}

impl From<Stopped> for ReadFault {
    ghost use Rattle.redo_log.specs.declared.fields.ReadFault.TheVariants.{Stopped as a_stop};

    ghost from_gives = { λ s e. e ≡ a_stop s };

    fn from(stopped: Stopped) -> ReadFault {
        ReadFault::Stopped(stopped)
    }
}

impl From<AllocError> for ReadFault {
    ghost use Rattle.redo_log.specs.declared.fields.ReadFault.TheVariants.{NoMemory as no_memory};

    ghost from_gives = { λ _ e. e ≡ no_memory };

    fn from(_fault: AllocError) -> ReadFault {
        ReadFault::NoMemory
    }
}

impl<T: Drop> From<AllocFailed<T>> for ReadFault {
    ghost use Rattle.redo_log.specs.declared.fields.ReadFault.TheVariants.{NoMemory as no_memory};

    ghost from_gives = { λ _ e. e ≡ no_memory };

    fn from(_fault: AllocFailed<T>) -> ReadFault {
        ReadFault::NoMemory
    }
}
