//! Laws of the granted writes of a trace.

ghost use Rattle.account_versions.specs.Written.{LedgersHaveWrites, ScriptsHaveWrites};

/// The ledger of a trace has its granted writes, each once.
pub fn ledgers_have_writes()
    ensures { LedgersHaveWrites }
{}

/// A script writes the pages whose writes were granted, where each was asked for.
pub fn scripts_have_writes()
    ensures { ScriptsHaveWrites }
{}
