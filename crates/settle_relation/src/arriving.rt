//! Messages that come to an owner keep the relation, each law as the clause of an empty function.

ghost use Rattle.settle_relation.specs.Arriving.{RequestIsKept, RequestAgrees, ReturnIsKept, ReturnAgrees};

/// A request that is taken keeps the relation: its transaction waits, and its page is settled.
pub fn request_is_kept()
    ensures { RequestIsKept }
{}

/// No page that is read for a request differs.
pub fn request_agrees()
    ensures { RequestAgrees }
{}

/// An answer to a revocation that is taken keeps the relation: by the machine's return where the page's table is there,
/// and then the page is settled.
pub fn return_is_kept()
    ensures { ReturnIsKept }
{}

/// No page that is read for an answer differs.
pub fn return_agrees()
    ensures { ReturnAgrees }
{}
