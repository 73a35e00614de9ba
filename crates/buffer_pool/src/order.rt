ghost use Rattle.std.specs.Prelude.{◌≡◌, cond, true, false, ◌+◌, ◌*◌, ◌≤◌, ◌<◌, ◌∷◌, ℕ, Some, None, length, nat_eq, IfOk, IsSome};
ghost use Rattle.std.specs.List.{AllByRecursion, IsDistinct, range_with_len};
ghost use Rattle.std.specs.Map.{set_value, lookup, remove_entry, keys_of};
ghost use Rattle.lru.specs.LruCache.{lru_cache};
ghost use Rattle.indexmap.specs.IndexMap.{spare};
ghost use Rattle.buffer_pool.specs.Entries.{last_row, first_row, page_to_go, fresh, use_at};
ghost use Rattle.buffer_pool.specs.declared.uses.Name.{Name};
ghost use Rattle.buffer_pool.specs.Kept.{IsListed, same_name, name_of, named_here};

use crate::uses::{Name, Use};
use indexmap::IndexMap;
use lru::LruCache;
use pcl_base::PageNo;
use std::alloc::{AllocError, Global};
use std::mem;
use std::num::NonZeroUsize;

/// The frames, all free.
pub(crate) fn all_free(alloc: Global, frames: u32) -> Result<LruCache<u32, Use>, AllocError>
    requires { 1 ≤ frames }
    ensures { IfOk result (λ c. c ≡ lru_cache (fresh frames) frames) }
{
    let count = NonZeroUsize::new(frames as usize).unwrap();
    let mut order = LruCache::new(alloc, count)?;
    for frame in 0..frames {
        match order.put(frame, Use::Free) {
            Ok(_) => {}
            Err(_) => return Err(AllocError),
        }
    }
    Ok(order)
}

/// The numbers of the frames.
pub(crate) fn numbers(alloc: Global, frames: u32) -> Result<Vec<u32>, AllocError>
    ensures { IfOk result (λ v. v.items ≡ range_with_len 0 frames) }
{
    (0..frames).collect(alloc)
}

/// The page of the last unpinned slot but that of `keep`. It walks from the end, over what can't go.
pub(crate) fn last_to_go(order: &LruCache<u32, Use>, keep: PageNo) -> Option<PageNo>
    ensures { result ≡ last_row (page_to_go keep) order.now.entries }
{
    let mut entries = order.iter();
    while let Some((_frame, used)) = entries.next_back() {
        if let Some(page) = used.page_to_go(keep) {
            return Some(page);
        }
    }
    None
}

/// Another use of a frame, which keeps its place in the order. The old use comes back.
pub(crate) fn replace(order: &mut LruCache<u32, Use>, frame: u32, used: Use) -> Use
    requires { IsSome (use_at order.old.entries frame) }
    ensures replaced { order.new ≡ lru_cache (set_value (nat_eq frame) order.old.entries used) order.old.cap }
    ensures old { use_at order.old.entries frame ≡ Some result }
{
    match order.peek_mut(&frame) {
        None => unreachable!(),
        Some(place) => mem::replace(place, used),
    }
}

/// Another use of a frame, which moves to the front.
pub(crate) fn bring(order: &mut LruCache<u32, Use>, frame: u32, used: Use)
    requires { IsSome (use_at order.old.entries frame) }
    ensures { order.new ≡ lru_cache ((frame, used) ∷ remove_entry (nat_eq frame) order.old.entries) order.old.cap }
{
    match order.put(frame, used) {
        Ok(_old) => {}
        Err(_) => unreachable!(),
    }
}

/// Lists a name that no frame in use has. Where the room is full, the names in use are listed anew.
pub(crate) fn list(
    order: &LruCache<u32, Use>,
    names: &mut IndexMap<Name, u32>,
    name: Name,
    frame: u32,
)
    requires distinct { IsDistinct nat_eq (keys_of order.now.entries) }
    requires listed { AllByRecursion (λ e. IsListed names.old.entries e.0 (name_of e.1)) order.now.entries }
    requires none { first_row (named_here name) order.now.entries ≡ None }
    requires room { 2 * length order.now.entries ≤ length names.old.entries + spare names.old }
    requires some { 1 ≤ length order.now.entries }
    ensures listed { AllByRecursion (λ e. IsListed names.new.entries e.0 (name_of e.1)) order.now.entries }
    ensures new { lookup (same_name name) names.new.entries ≡ Some frame }
    ensures room { 2 * length order.now.entries ≤ length names.new.entries + spare names.new }
{
    make_room(order, names);
    if move_name(names, name, frame) {
        return;
    }
    match names.insert(name, frame) {
        Ok(_none) => {}
        Err(_) => unreachable!(),
    }
}

// Gives a name that is listed another frame; false where it isn't listed.
fn move_name(names: &mut IndexMap<Name, u32>, name: Name, frame: u32) -> bool
    ensures moved { result ≡ true → (q : Name) → lookup (same_name q) names.new.entries ≡ cond (same_name name q) (Some frame) (lookup (same_name q) names.old.entries) }
    ensures absent { result ≡ false → (lookup (same_name name) names.old.entries ≡ None) × (names.new ≡ names.old) }
    ensures len { length names.new.entries ≡ length names.old.entries }
    ensures spare { spare names.new ≡ spare names.old }
{
    match names.get_mut(&name) {
        Some(place) => {
            *place = frame;
            true
        }
        None => false,
    }
}

// Makes room for one more name.
fn make_room(order: &LruCache<u32, Use>, names: &mut IndexMap<Name, u32>)
    requires distinct { IsDistinct nat_eq (keys_of order.now.entries) }
    requires listed { AllByRecursion (λ e. IsListed names.old.entries e.0 (name_of e.1)) order.now.entries }
    requires room { 2 * length order.now.entries ≤ length names.old.entries + spare names.old }
    requires some { 1 ≤ length order.now.entries }
    ensures listed { AllByRecursion (λ e. IsListed names.new.entries e.0 (name_of e.1)) order.now.entries }
    ensures room { 2 * length order.now.entries ≤ length names.new.entries + spare names.new }
    ensures spare { 0 < spare names.new }
{
    if names.len() == names.capacity() {
        list_all(order, names);
        return;
    }
}

// Lists the names in use alone.
fn list_all(order: &LruCache<u32, Use>, names: &mut IndexMap<Name, u32>)
    requires distinct { IsDistinct nat_eq (keys_of order.now.entries) }
    requires listed { AllByRecursion (λ e. IsListed names.old.entries e.0 (name_of e.1)) order.now.entries }
    requires room { 2 * length order.now.entries ≤ length names.old.entries + spare names.old }
    ensures listed { AllByRecursion (λ e. IsListed names.new.entries e.0 (name_of e.1)) order.now.entries }
    ensures room { 2 * length order.now.entries ≤ length names.new.entries + spare names.new }
    ensures spare { length order.now.entries ≤ spare names.new }
{
    names.clear();
    for (frame, used) in order.iter() {
        if let Some(name) = used.name() {
            match names.insert(name, *frame) {
                Ok(_none) => {}
                Err(_) => unreachable!(),
            }
        }
    }
}
