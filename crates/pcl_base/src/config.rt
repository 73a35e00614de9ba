ghost use Rattle.std.specs.Prelude.{◌≡◌, ◌%◌, ◌<◌, OnOk};
ghost use Rattle.pcl_base.specs.Limits.{Sizes, InLimits, config_of};

use crate::names::{NodeNo, PageNo};
use std::marker::Model;
use thiserror::Error;

/// The first number of a configuration that is out of its limits.
#[derive(Clone, Copy, Debug, Error, PartialEq, Eq)]
pub enum ConfigFault {
    /// The nodes aren't 1 to 16.
    #[error("BadNodes")]
    BadNodes,
    /// The pages aren't 1 to 65,536.
    #[error("BadPages")]
    BadPages,
    /// The bytes of a page aren't 8 to 4,096.
    #[error("BadSize")]
    BadSize,
    /// The frames aren't 2 to 4,096.
    #[error("BadFrames")]
    BadFrames,
}

/// The four numbers of a cluster, within their limits.
#[derive(Clone, Copy, Debug, PartialEq, Eq)]
pub struct Config {
    nodes: u32,
    pages: u32,
    size: u32,
    frames: u32,
}

impl Model for Config {
    ghost use Rattle.pcl_base.specs.Limits.{Sizes};

    ghost Value = { Sizes };

    ghost use Rattle.pcl_base.specs.Limits.{InLimits};

    ghost view = { λ c. record { nodes = c.nodes; pages = c.pages; size = c.size; frames = c.frames } };

    ghost invariant = { λ c. InLimits (record { nodes = c.nodes; pages = c.pages; size = c.size; frames = c.frames }) };

    ghost inverse = { λ v. record { nodes = v.nodes; pages = v.pages; size = v.size; frames = v.frames } };
}

impl Config {
    /// The configuration of these numbers, or the first of them that is out of its limits.
    pub fn new(nodes: u32, pages: u32, size: u32, frames: u32) -> Result<Config, ConfigFault>
        ensures { result ≡ config_of nodes pages size frames }
    {
        if nodes < 1 || 16 < nodes {
            return Err(ConfigFault::BadNodes);
        }
        if pages < 1 || 65_536 < pages {
            return Err(ConfigFault::BadPages);
        }
        if size < 8 || 4_096 < size {
            return Err(ConfigFault::BadSize);
        }
        if frames < 2 || 4_096 < frames {
            return Err(ConfigFault::BadFrames);
        }
        Ok(Config {
            nodes,
            pages,
            size,
            frames,
        })
    }

    /// The number of nodes N, 1 to 16.
    pub fn nodes(&self) -> u32
        ensures value { result ≡ self.now.nodes }
        ensures limits { InLimits self.now }
    {
        self.nodes
    }

    /// The number of pages P, 1 to 65,536.
    pub fn pages(&self) -> u32
        ensures value { result ≡ self.now.pages }
        ensures limits { InLimits self.now }
    {
        self.pages
    }

    /// The bytes of a page B, 8 to 4,096.
    pub fn size(&self) -> u32
        ensures value { result ≡ self.now.size }
        ensures limits { InLimits self.now }
    {
        self.size
    }

    /// The frames of one node's buffer F, 2 to 4,096.
    pub fn frames(&self) -> u32
        ensures value { result ≡ self.now.frames }
        ensures limits { InLimits self.now }
    {
        self.frames
    }

    /// The partition of a page, `page mod N`.
    pub fn partition(&self, page: PageNo) -> NodeNo
        requires { page < self.now.pages }
        ensures value { result ≡ page % self.now.nodes }
        ensures bound { result < self.now.nodes }
    {
        (page % self.nodes) as u8
    }
}

#[cfg(test)]
mod tests {
    use super::*;
    use std::test::Fail;

    #[test]
    fn a_fault_is_its_name(rt: HostRuntime) -> Result<(), Fail> {
        let table = [
            (ConfigFault::BadNodes, "BadNodes"),
            (ConfigFault::BadPages, "BadPages"),
            (ConfigFault::BadSize, "BadSize"),
            (ConfigFault::BadFrames, "BadFrames"),
        ];
        for (fault, name) in table {
            let text = format!(in rt.alloc(); "{fault}")?;
            assert_eq!(rt; text.as_str(), name);
        }
        Ok(())
    }
}
