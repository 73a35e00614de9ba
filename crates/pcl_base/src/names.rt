use crate::items::Items;

/// A node, numbered from 0.
pub type NodeNo = u8;

/// A page, numbered from 0. Page `p` is in partition `p mod N`.
pub type PageNo = u32;

/// The number of committed transactions that wrote a page, from 0 to the last `u64`.
pub type Version = u64;

/// The bytes of a page, or of a part of one.
pub type Page = Items<u8>;
