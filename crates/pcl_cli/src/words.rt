ghost use Rattle.std.specs.Prelude.{◌≡◌, Bool, Some, None, map, string_bytes, false};
ghost use Rattle.text_rules.specs.Generator.{made_text};
ghost use Rattle.pcl_cli.specs.Words.{totals_of as totals_of_spec, totals_of_word, IsRefused};
ghost use Rattle.disk_model.specs.Disk.{HasSizes};
ghost use Rattle.serving_parts.specs.Sides.{outs_of, sides_of, store_of};
ghost use Rattle.serving_parts.specs.Outcome.{Outcome as Served, first_link};
ghost use Rattle.pcl_cli.specs.MakeWords.{Job, job_of as job_of_spec};
ghost use Rattle.pcl_cli.specs.NodeWords.{NodeJob, node_job_of as node_job_of_spec, most_frames, is_form};
ghost use Rattle.pcl_cli.specs.MakeText.{IsMade};
ghost use Rattle.replay.specs.Outcome.{Outcome};

use crate::forms::{job_of, node_job_of};
use crate::make::make;
use disk_model::Storage;
use node_link::serve;
use pcl_base::{Sink, Source};
use replay::{replay, write_all};
use std::alloc::Global;

/// What is written where the words are no form.
const USAGE: &[u8] =
    b"usage: replay | summary | make SEED LINES NODES PAGES SIZE FRAMES | node NODE NODES PAGES SIZE FRAMES\n";

/// How many frames a node reads at most.
const MOST_FRAMES: u64 = 1_000_000_000;

/// Does the job that the words ask for, and answers the exit status.
///
/// The words `replay` and `summary` run the schedule that the source gives, and write its trace or the
/// totals of that, with the statuses of [`replay`]. The words `make SEED LINES NODES PAGES SIZE FRAMES`
/// write a generated schedule and read nothing; the status is 0, or 5 where the sink failed, or 9 for want
/// of memory. SEED is 0 to 65,535, LINES 1 to 199,999, and the other four numbers are those of a
/// configuration. The words `node NODE NODES PAGES SIZE FRAMES` serve one node over the frames that the
/// source gives, at most 1,000,000,000, and over the storage, with the statuses of [`serve`]; NODE is below
/// NODES, and the last four numbers are a configuration, whose sizes the storage has. Any other words are
/// answered by the usage line and status 2, or by 5 where the sink failed.
///
/// Only `node` touches the storage.
pub fn run<I: Source, O: Sink, S: Storage>(
    alloc: Global,
    words: &Vec<String>,
    input: &mut I,
    output: &mut O,
    storage: &mut S,
) -> u8
    requires sizes { (j : NodeJob) → node_job_of_spec (map (λ w. string_bytes w) words.now.items) ≡ Some j → HasSizes j.sizes (S.pages storage.old) (S.logs storage.old) (S.rooms storage.old) }
    ensures replay { (totals : Bool) → totals_of_spec (map (λ w. string_bytes w) words.now.items) ≡ Some totals → Outcome totals (I.left input.old) (I.left input.new) (O.written output.old) (O.written output.new) (I.faults input.old) (I.faults input.new) (O.faults output.old) (O.faults output.new) result }
    ensures make { (j : Job) → job_of_spec (map (λ w. string_bytes w) words.now.items) ≡ Some j → IsMade (O.written output.old) (O.written output.new) (O.faults output.old) (O.faults output.new) result (made_text j.sizes j.seed j.lines) }
    ensures node { (j : NodeJob) → node_job_of_spec (map (λ w. string_bytes w) words.now.items) ≡ Some j → Served (first_link j.sizes j.me most_frames) (sides_of (I.left input.old) (I.faults input.old) (outs_of (O.written output.old) (O.faults output.old) (store_of (S.pages storage.old) (S.logs storage.old) (S.stops storage.old) (S.failing storage.old) (S.faults storage.old)))) (sides_of (I.left input.new) (I.faults input.new) (outs_of (O.written output.new) (O.faults output.new) (store_of (S.pages storage.new) (S.logs storage.new) (S.stops storage.new) (S.failing storage.new) (S.faults storage.new)))) result }
    ensures usage { is_form (map (λ w. string_bytes w) words.now.items) ≡ false → IsRefused (O.written output.old) (O.written output.new) (O.faults output.old) (O.faults output.new) result }
    ensures untouched { totals_of_spec (map (λ w. string_bytes w) words.now.items) ≡ None → node_job_of_spec (map (λ w. string_bytes w) words.now.items) ≡ None → input.new ≡ input.old }
    ensures stored { node_job_of_spec (map (λ w. string_bytes w) words.now.items) ≡ None → storage.new ≡ storage.old }
{
    if let Some(totals) = totals_of(words) {
        return replay(alloc, input, output, totals);
    }
    if let Some(job) = job_of(words) {
        return make(alloc, &job, output);
    }
    if let Some(job) = node_job_of(words) {
        return serve(
            alloc,
            &job.config,
            job.me,
            MOST_FRAMES,
            input,
            output,
            storage,
        );
    }
    refuse(output)
}

/// Whether the words ask for the totals of a run, or for its trace, or for neither.
fn totals_of(words: &Vec<String>) -> Option<bool>
    ensures { result ≡ totals_of_spec (map (λ w. string_bytes w) words.now.items) }
{
    match words.as_slice() {
        [word] => word_totals(word.as_bytes()),
        _ => None,
    }
}

/// The same of the one word that there is.
fn word_totals(word: &[u8]) -> Option<bool>
    ensures { result ≡ totals_of_word word.now }
{
    if word == b"replay".as_slice() {
        return Some(false);
    }
    if word == b"summary".as_slice() {
        return Some(true);
    }
    None
}

/// Writes the usage line.
fn refuse<O: Sink>(output: &mut O) -> u8
    ensures { IsRefused (O.written output.old) (O.written output.new) (O.faults output.old) (O.faults output.new) result }
{
    match write_all(output, USAGE) {
        Ok(()) => 2,
        Err(_) => 5,
    }
}
