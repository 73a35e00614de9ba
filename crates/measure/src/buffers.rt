//! The buffer of a node: hits and replacements, with so many frames of 64 bytes.

ghost use Rattle.std.specs.Prelude.{◌≡◌, IfOk};

use buffer_pool::BufferPool;
use pcl_base::{NoMemory, PageNo};
use std::alloc::Global;

/// The size of a page.
const SIZE: u32 = 64;

/// Evicts the last page in use but `keep`.
#[tactic(auto, unfolding(node_rules::specs::BufferRule::evict))]
fn make_room(pool: &mut BufferPool, keep: PageNo)
    ensures { pool.new.size ≡ pool.old.size }
{
    let Some(victim) = pool.victim(keep) else {
        return;
    };
    if pool.find(victim).is_none() || pool.pinned(victim) || pool.dirty(victim) {
        return;
    }
    let _evicted = pool.evict(victim);
}

/// Gives a page a slot in a free frame, where there is one.
#[tactic(auto, unfolding(node_rules::specs::BufferRule::place))]
fn place(pool: &mut BufferPool, page: PageNo)
    ensures { pool.new.size ≡ pool.old.size }
{
    if pool.has_slot(page) || pool.free() == 0 {
        return;
    }
    pool.place(page);
}

/// Fills the slot of a page, where it has one.
#[tactic(auto, unfolding(node_rules::specs::BufferRule::install))]
fn fill(pool: &mut BufferPool, page: PageNo) -> usize
    requires { pool.old.size ≡ 64 }
    ensures { pool.new.size ≡ 64 }
{
    if !pool.has_slot(page) {
        return 0;
    }
    pool.install(page, 1, [7u8; 64].as_slice(), false);
    1
}

/// Brings a page into the buffer, in the place of another one where no frame is free.
fn bring(pool: &mut BufferPool, page: PageNo) -> usize
    requires { pool.old.size ≡ 64 }
    ensures { pool.new.size ≡ 64 }
{
    if pool.free() == 0 {
        make_room(pool, page);
    }
    place(pool, page);
    fill(pool, page)
}

/// Moves the slot of a page to the front, where it has one.
fn hit(pool: &mut BufferPool, page: PageNo) -> usize {
    if !pool.has_slot(page) {
        return 0;
    }
    pool.touch(page);
    1
}

/// A buffer all frames of which are in use.
fn filled(alloc: Global, frames: u32) -> Result<BufferPool, NoMemory>
    ensures { IfOk result (λ pool. pool.size ≡ 64) }
{
    let frames = frames.clamp(1, 4096);
    let mut pool = BufferPool::open(alloc, frames, SIZE)?;
    for page in 0..frames {
        let _filled = bring(&mut pool, page);
    }
    Ok(pool)
}

/// Uses pages that are in the buffer, each in turn.
pub(crate) fn hits(alloc: Global, frames: u32, rounds: u32) -> Result<usize, NoMemory> {
    let mut pool = filled(alloc, frames)?;
    let mut count: usize = 0;
    for round in 0..rounds {
        let page = round.checked_rem(frames).unwrap_or(0);
        count = count.saturating_add(hit(&mut pool, page));
    }
    pool.close();
    Ok(count)
}

/// Brings pages into a full buffer that aren't there.
pub(crate) fn replacements(alloc: Global, frames: u32, rounds: u32) -> Result<usize, NoMemory> {
    let mut pool = filled(alloc, frames)?;
    let mut count: usize = 0;
    for round in 0..rounds {
        count = count.saturating_add(bring(&mut pool, round.saturating_add(4096)));
    }
    pool.close();
    Ok(count)
}
