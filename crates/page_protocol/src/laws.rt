//! The laws of one page. Each stands as the clause of a function that does nothing, so that a crate above
//! can cite it, and an edit of the machine that breaks it is refused.

ghost use Rattle.std.specs.Prelude.{ℕ, List};
ghost use Rattle.pcl_base.specs.declared.tx.TxId.{TxId};
ghost use Rattle.page_protocol.specs.State.{Page, Sent};
ghost use Rattle.page_protocol.specs.Steps.{Run, Reached};
ghost use Rattle.page_protocol.specs.Laws.{StepsKeep, RunsKeep, IsSerial, IsFreshAt, IsDurable, IsLoggedOnce, IsAlone, BringsCurrent, RightsAreCurrent, IsGivenBackInTime, LaterAreUsed, NamedAreUsed, HistoryStays};

/// Every step keeps the invariant, from every state that has it.
pub fn steps_keep_the_invariant()
    ensures { StepsKeep }
{}

/// Every page that a run leads to from the opening state has the invariant.
pub fn runs_keep_the_invariant()
    ensures { RunsKeep }
{}

/// Serial: after every run the committed scripts, one after another on one copy, meet no read that differs
/// and leave the current version and bytes.
pub fn committed_scripts_replay()
    ensures { (blank : List ℕ) (a : Page) → Reached blank a → IsSerial blank a }
{}

/// Fresh: wherever a transaction may access the page, its node has the current version, and what it sees
/// is what the committed transactions and its own earlier accesses leave.
pub fn accesses_are_fresh()
    ensures { (blank : List ℕ) (a : Page) → Reached blank a → (t : TxId) → IsFreshAt a t }
{}

/// Durable: after every run redo from disk and logs reaches the current version and bytes, and nothing else.
pub fn redo_gives_the_current_page()
    ensures { (blank : List ℕ) (a : Page) → Reached blank a → IsDurable a }
{}

/// Each version above the disk's, up to the current one, has its record in exactly one log.
pub fn each_version_is_logged_once()
    ensures { (blank : List ℕ) (a : Page) → Reached blank a → IsLoggedOnce a }
{}

/// Beside a transaction that holds the page exclusively no other has a lock, and no right is on a shelf.
pub fn one_writer_or_readers()
    ensures { (blank : List ℕ) (a : Page) → Reached blank a → (t : TxId) → IsAlone a t }
{}

/// A grant that would be taken brings the current version, and its copy is the current page.
pub fn grants_bring_the_current_page()
    ensures { (blank : List ℕ) (a : Page) → Reached blank a → (g : Sent) → BringsCurrent a g }
{}

/// A right on a shelf has the current version.
pub fn rights_are_current()
    ensures { (blank : List ℕ) (a : Page) → Reached blank a → RightsAreCurrent a }
{}

/// A right that was given back was given back for no era above the one after that which its node has reached.
pub fn rights_are_given_back_in_time()
    ensures { (blank : List ℕ) (a : Page) → Reached blank a → IsGivenBackInTime a }
{}

/// Whom an era after the serving one lists has accessed the page: a report lists no lock that wasn't used.
pub fn later_eras_list_who_accessed()
    ensures { (blank : List ℕ) (a : Page) → Reached blank a → LaterAreUsed a }
{}

/// Whom an answer to a revocation names has accessed the page.
pub fn answers_name_who_accessed()
    ensures { (blank : List ℕ) (a : Page) → Reached blank a → NamedAreUsed a }
{}

/// No run changes the bytes of a version that there is, takes a version back, or takes back a commit.
pub fn history_stays()
    ensures { (a b : Page) → Run a b → HistoryStays a b }
{}
