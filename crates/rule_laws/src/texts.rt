//! Laws of texts and bytes: none has two meanings.
//!
//! That a message has one spelling, and no bytes spell two messages, stands in the crate `messages`.

ghost use Rattle.rule_laws.specs.OneMeaning.{NoRecordIsFront, RecordsDiffer, LinesDiffer};

/// The bytes of a log record are no proper front of the bytes of another one: where a record ends in a log
/// never depends on what follows.
pub fn no_record_is_front()
    ensures { NoRecordIsFront }
{}

/// No bytes are the bytes of two log records.
pub fn records_differ()
    ensures { RecordsDiffer }
{}

/// No line of a schedule is the line of two events.
pub fn lines_differ()
    ensures { LinesDiffer }
{}
