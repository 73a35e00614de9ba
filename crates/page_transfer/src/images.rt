ghost use Rattle.std.specs.Prelude.{◌≡◌, ◌≤◌, true, Some, length, is_some, IfOk};
ghost use Rattle.node_rules.specs.BufferRule.{copy_at, bytes_of_copy, private_bytes, has_slot, install};
ghost use Rattle.buffer_pool.specs.Buffer.{IsBuffer};

use buffer_pool::BufferPool;
use pcl_base::{Items, NoMemory, Page, PageNo, TxId, Version};
use std::alloc::{AllocError, Global};

/// The image of the page's copy, which has to be there: a copy of its bytes. `NoMemory` only where
/// memory is wanting.
pub fn image_out(alloc: Global, pool: &BufferPool, page: PageNo) -> Result<Page, NoMemory>
    requires { is_some (copy_at pool.now page) ≡ true }
    ensures image { IfOk result (λ image. image ≡ bytes_of_copy (copy_at pool.now page)) }
    ensures len { IfOk result (λ image. length image ≡ pool.now.size) }
{
    Ok(copied(alloc, pool.bytes(page))?)
}

/// The image of the transaction's private copy of the page, which has to be there and filled: a
/// copy of its bytes. `NoMemory` only where memory is wanting.
pub fn private_out(
    alloc: Global,
    pool: &BufferPool,
    tx: TxId,
    page: PageNo,
) -> Result<Page, NoMemory>
    requires { is_some (private_bytes pool.now tx page) ≡ true }
    ensures image { IfOk result (λ image. Some image ≡ private_bytes pool.now tx page) }
    ensures len { IfOk result (λ image. length image ≡ pool.now.size) }
{
    match pool.private_bytes(tx, page) {
        None => unreachable!(),
        Some(bytes) => Ok(copied(alloc, bytes)?),
    }
}

/// The page's slot, which has to be there, gets the image at a version. The image has the size of a
/// page. Takes no memory.
pub fn image_in(pool: &mut BufferPool, page: PageNo, version: Version, image: &Page, dirty: bool)
    requires slot { has_slot pool.old page ≡ true }
    requires size { length image.now ≡ pool.old.size }
    ensures installed { pool.new ≡ install pool.old page (record { version = version; bytes = image.now; dirty = dirty }) }
    ensures sound { IsBuffer pool.new }
{
    pool.install(page, version, image.as_slice(), dirty);
}

// The bytes in memory of their own.
fn copied(alloc: Global, bytes: &[u8]) -> Result<Page, AllocError>
    ensures { IfOk result (λ page. page ≡ bytes.now) }
{
    Ok(Items::of(Vec::from_slice(alloc, bytes)?))
}
