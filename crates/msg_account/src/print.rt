ghost use Rattle.std.specs.Prelude.{◌≡◌, ◌++◌, IfOk, OnOk};
ghost use Rattle.text_rules.specs.Totals.{total_line, totals_text};
ghost use Rattle.msg_account.specs.Counting.{counted};

use crate::tally::Tally;
use itoa::Buffer;
use pcl_base::NoMemory;
use std::alloc::Global;

impl Tally {
    /// The text of the counts (docs/formats.md, totals): 18 lines, each a word, a space, the number
    /// and a newline.
    ///
    /// It answers [`NoMemory`] where there is none for the text.
    pub fn print(&self, alloc: Global) -> Result<Vec<u8>, NoMemory>
        ensures { IfOk result (λ text. text.items ≡ totals_text (counted self.now)) }
    {
        let mut out = Vec::new(alloc);
        put_total(&mut out, b"events", self.events)?;
        put_total(&mut out, b"begun", self.begun)?;
        put_total(&mut out, b"values", self.values)?;
        put_total(&mut out, b"done", self.done)?;
        put_total(&mut out, b"waits", self.waits)?;
        put_total(&mut out, b"committed", self.committed)?;
        put_total(&mut out, b"aborted", self.aborted)?;
        put_total(&mut out, b"held", self.held)?;
        put_total(&mut out, b"dropped", self.dropped)?;
        put_total(&mut out, b"refused", self.refused)?;
        put_total(&mut out, b"halted", self.halted)?;
        put_total(&mut out, b"requests", self.requests)?;
        put_total(&mut out, b"grants", self.grants)?;
        put_total(&mut out, b"releases", self.releases)?;
        put_total(&mut out, b"revokes", self.revokes)?;
        put_total(&mut out, b"returns", self.returns)?;
        put_total(&mut out, b"reports", self.reports)?;
        put_total(&mut out, b"images", self.images)?;
        Ok(out)
    }
}

/// Appends a line of a word and its count.
fn put_total(out: &mut Vec<u8>, word: &[u8], count: u64) -> Result<(), NoMemory>
    ensures { OnOk result (out.new.items ≡ out.old.items ++ total_line word.now count) }
{
    out.extend_from_slice(word)?;
    out.extend_from_slice(b" ")?;
    out.extend_from_slice(Buffer::new().format(count).as_bytes())?;
    Ok(out.extend_from_slice(b"\n")?)
}
