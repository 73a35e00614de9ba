ghost use Rattle.std.specs.Prelude.{◌≡◌, None, IfOk};
ghost use Rattle.pcl_base.specs.declared.trace.Call.{Call as Kind};
ghost use Rattle.disk_model.specs.Causes.{HasCauses};
ghost use Rattle.file_store.specs.Counting.{count_of};

use crate::counts::Faults;
use crate::files;
use disk_model::Storage;
use pcl_base::{Call, Failed, NoMemory, NodeNo, PageNo};
use std::alloc::Global;
use std::fs;
use std::io::{self, SeekFrom};
use std::marker::Model;
use std::rt::Files;

/// A storage over a folder. It tells no content. Any error of a file is a fault of the call's
/// kind. It is a trusted edge: nothing is proved of what files hold.
#[derive(Drop)]
pub struct FileStore<R: Files + Drop> {
    rt: R,
    folder: String,
    pages: String,
    logs: Vec<String>,
    second: String,
    faults: Faults,
}

impl<R: Files + Drop> Model for FileStore<R> {
    ghost use Rattle.file_store.specs.declared.counts.Faults.{Faults};

    ghost Value = { Faults };

    ghost view = { λ s. s.faults };
}

impl<R: Files + Drop> FileStore<R> {
    /// The store of a folder, with no fault yet. It makes no file; the first call of the storage
    /// does.
    pub fn open(alloc: Global, rt: R, folder: &str) -> Result<FileStore<R>, NoMemory>
        ensures { IfOk result (λ s. (k : Kind) → count_of s k ≡ 0) }
    {
        let mut logs = Vec::with_capacity(alloc, 16)?;
        for node in 0..16u8 {
            logs.push(format!(in alloc; "{folder}/log{node}")?)?;
        }
        Ok(FileStore {
            rt,
            folder: format!(in alloc; "{folder}")?,
            pages: format!(in alloc; "{folder}/pages")?,
            logs,
            second: format!(in alloc; "{folder}/rest")?,
            faults: Faults::none(),
        })
    }

    /// The answer of a call, whose fault is counted.
    fn counted<T: Drop>(&mut self, call: Call, answer: io::Result<T>) -> Result<T, Failed>
        ensures { HasCauses call (count_of self.old) (count_of self.new) result }
    {
        match answer {
            Ok(value) => Ok(value),
            Err(_fault) => Err(self.faults.fail(call)),
        }
    }

    /// The file of pages, in a folder that is there.
    fn pages_path(&self) -> io::Result<&str> {
        fs::create_dir_all(&self.rt, self.folder.as_str())?;
        Ok(self.pages.as_str())
    }

    /// The file of a log, in a folder that is there.
    fn log_path(&self, node: NodeNo) -> io::Result<&str> {
        fs::create_dir_all(&self.rt, self.folder.as_str())?;
        match self.logs.get(node as usize) {
            Some(path) => Ok(path.as_str()),
            None => Err(io::Error::from(io::ErrorKind::NotFound)),
        }
    }

    fn page_in(&self, page: PageNo, out: &mut [u8]) -> io::Result<()> {
        let place = (page as u64).saturating_mul(out.len() as u64);
        files::read_padded(&self.rt, self.pages_path()?, place, out)
    }

    fn page_out(&self, page: PageNo, bytes: &[u8]) -> io::Result<()> {
        let place = (page as u64).saturating_mul(bytes.len() as u64);
        files::write(&self.rt, self.pages_path()?, SeekFrom::Start(place), bytes)
    }

    fn length(&self, node: NodeNo) -> io::Result<u64> {
        files::length(&self.rt, self.log_path(node)?)
    }

    fn piece(&self, node: NodeNo, from: u64, out: &mut [u8]) -> io::Result<()> {
        files::read_whole(&self.rt, self.log_path(node)?, from, out)
    }

    fn append(&self, node: NodeNo, bytes: &[u8]) -> io::Result<()> {
        files::write(&self.rt, self.log_path(node)?, SeekFrom::End(0), bytes)
    }

    fn keep(&self, node: NodeNo, keep: u64) -> io::Result<()> {
        files::trim(&self.rt, self.log_path(node)?, keep)
    }

    fn cut(&self, node: NodeNo, count: u64) -> io::Result<()> {
        files::cut(&self.rt, self.log_path(node)?, self.second.as_str(), count)
    }
}

impl<R: Files + Drop> Storage for FileStore<R> {
    ghost pages = { λ _. None };

    ghost logs = { λ _. None };

    ghost rooms = { λ _. None };

    ghost stops = { λ _. None };

    ghost failing = { λ _. None };

    ghost faults = { λ s. count_of s };

    fn room(&mut self, _node: NodeNo, _bytes: u64) -> Result<(), NoMemory> {
        Ok(())
    }

    fn read_page(&mut self, _by: NodeNo, page: PageNo, out: &mut [u8]) -> Result<(), Failed> {
        let answer = self.page_in(page, out);
        self.counted(Call::Read, answer)
    }

    fn log_len(&mut self, _by: NodeNo, node: NodeNo) -> Result<u64, Failed> {
        let answer = self.length(node);
        self.counted(Call::Log, answer)
    }

    fn read_log(
        &mut self,
        _by: NodeNo,
        node: NodeNo,
        from: u64,
        out: &mut [u8],
    ) -> Result<(), Failed> {
        let answer = self.piece(node, from, out);
        self.counted(Call::Log, answer)
    }

    fn write_page(&mut self, _by: NodeNo, page: PageNo, bytes: &[u8]) -> Result<(), Failed> {
        let answer = self.page_out(page, bytes);
        self.counted(Call::Write, answer)
    }

    fn force(&mut self, node: NodeNo, bytes: &[u8]) -> Result<(), Failed> {
        let answer = self.append(node, bytes);
        self.counted(Call::Force, answer)
    }

    fn trim_log(&mut self, node: NodeNo, keep: u64) -> Result<(), Failed> {
        let answer = self.keep(node, keep);
        self.counted(Call::Trim, answer)
    }

    fn cut_log(&mut self, node: NodeNo, count: u64) -> Result<(), Failed> {
        let answer = self.cut(node, count);
        self.counted(Call::Cut, answer)
    }
}
