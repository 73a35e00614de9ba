//! The law of sends.

ghost use Rattle.account_relation.specs.Step.Sends.{StepsSend};

/// A step sends grants, releases and revocations alone; or one request, where its access waits; or one answer to the
/// revocation that it took; or reports, rising by partition, beside grants and revocations where it installs a view.
pub fn steps_send()
    ensures { StepsSend }
{}
