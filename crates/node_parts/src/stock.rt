ghost use Rattle.std.specs.Prelude.{◌≡◌, ◌<◌, ◌≤◌, ◌+◌, length, IfOk};
ghost use Rattle.node_parts.specs.Stock.{StockView};

use pcl_base::{Items, NoMemory, Page};
use std::alloc::Global;
use std::marker::Model;

/// Empty lists with room for a page each, for the images of the grants that a step sends. They are
/// taken before anything is changed, so that carrying decisions out takes no memory.
#[derive(Drop)]
pub struct Stock {
    size: usize,
    lists: Vec<Vec<u8>>,
}

impl Model for Stock {
    ghost use Rattle.std.specs.Prelude.{length};
    ghost use Rattle.node_parts.specs.Stock.{StockView, AreReady};

    ghost Value = { StockView };

    ghost view = { λ s. record { size = s.size; count = length s.lists.items } };

    ghost invariant = { λ s. AreReady s.size s.lists.items };
}

impl Stock {
    /// So many lists for pages of so many bytes.
    pub fn open(alloc: Global, size: usize, count: usize) -> Result<Stock, NoMemory>
        ensures { IfOk result (λ s. s ≡ record { size = size; count = count }) }
    {
        let mut lists = Vec::with_capacity(alloc, count)?;
        for _ in 0..count {
            lists.push(Vec::with_capacity(alloc, size)?)?;
        }
        Ok(Stock { size, lists })
    }

    /// An image with these bytes, in a list of the stock. It takes no memory.
    pub fn image(&mut self, bytes: &[u8]) -> Page
        requires some { 0 < self.old.count }
        requires size { length bytes.now ≤ self.old.size }
        ensures image { result ≡ bytes.now }
        ensures size { self.new.size ≡ self.old.size }
        ensures count { self.new.count + 1 ≡ self.old.count }
    {
        match self.lists.pop() {
            None => unreachable!(),
            Some(list) => {
                let mut list = list;
                list.extend_from_slice(bytes).unwrap();
                Items::of(list)
            }
        }
    }
}
