ghost use Rattle.std.specs.Prelude.{◌≡◌, ◌-◌, ℕ, IfOk, IfErr, IfSome};
ghost use Rattle.text_rules.specs.MessageBytes.{message_bytes, IsMessage};
ghost use Rattle.text_rules.specs.ReadMessage.{decoded};
ghost use Rattle.messages.specs.Reading.{stop_of, stop_in, refusal_in, refusal_of};

use crate::body::message;
use crate::fault::DecodeFault;
use crate::fields::{Fault, Fields, ReadFault, Stopped};
use pcl_base::{Config, Message};
use std::alloc::Global;

/// The fault of a stop among so many bytes.
fn refusal(count: usize, stopped: Stopped) -> DecodeFault
    ensures { refusal_in result ≡ Some (refusal_of count (stop_of stopped)) }
{
    let place = count.saturating_sub(stopped.left);
    match stopped.fault {
        Fault::Short => DecodeFault::Short { place },
        Fault::BadKind => DecodeFault::BadKind { place },
        Fault::BadField => DecodeFault::BadField { place },
        Fault::TooLong => DecodeFault::TooLong { place },
    }
}

/// The message that all the bytes spell, or the first fault from the left with its place, or want
/// of memory (formats, messages). It reads each byte once.
pub fn decode(alloc: Global, config: &Config, bytes: &[u8]) -> Result<Message, DecodeFault>
    ensures ok { IfOk result (λ m. decoded config.now bytes.now ≡ Ok m) }
    ensures err { IfErr result (λ e. IfSome (refusal_in e) (λ r. decoded config.now bytes.now ≡ Err r)) }
    ensures spelt { IfOk result (λ m. message_bytes m ≡ bytes.now) }
    ensures is_message { IfOk result (IsMessage config.now) }
{
    let count = bytes.len();
    let mut fields = Fields::of(bytes);
    match message(alloc, &mut fields, config) {
        Ok(m) => match fields.end() {
            Ok(()) => Ok(m),
            Err(stopped) => Err(refusal(count, stopped)),
        },
        Err(ReadFault::Stopped(stopped)) => Err(refusal(count, stopped)),
        Err(ReadFault::NoMemory) => Err(DecodeFault::NoMemory),
    }
}
