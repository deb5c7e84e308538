ghost use Rattle.std.specs.Prelude.{◌≡◌, [], None};

use crate::fault::{Failed, OutsideFault};
use crate::files::Files;
use crate::source::Source;
use cedr_base::Text;
use std::alloc::Global;
use std::fs::File;
use std::io::Read;
use std::{fs, str};

/// The files of the file system, by their paths. What they hold isn't known.
#[derive(Drop)]
pub struct DiskFiles<'a> {
    rt: &'a HostRuntime,
    asked: Vec<Text>,
    faults: u64,
}

impl<'a> DiskFiles<'a> {
    pub fn new(rt: &'a HostRuntime) -> DiskFiles<'a>
        ensures faults { ⟦<DiskFiles<'a> as Files>⟧.faults result ≡ 0 }
        ensures asked { ⟦<DiskFiles<'a> as Files>⟧.asked result ≡ [] }
    {
        DiskFiles {
            rt,
            asked: Vec::new(rt.alloc()),
            faults: 0,
        }
    }

    fn open(&self, name: &[u8]) -> Option<File> {
        let path = str::from_utf8(name).ok()?;
        fs::open(self.rt, path).ok()
    }
}

impl Files for DiskFiles<'_> {
    type Source = DiskSource;

    ghost content = { λ _ _. None };

    ghost faults = { λ f. f.faults };

    ghost asked = { λ f. f.asked.items };

    fn find(&mut self, name: &[u8]) -> Result<DiskSource, OutsideFault> {
        let kept = Text::from_slice(self.rt.alloc(), name)?;
        self.asked.push(kept)?;
        let Some(file) = self.open(name) else {
            self.faults = self.faults.saturating_add(1);
            return Err(OutsideFault::Failed);
        };
        Ok(DiskSource { file, faults: 0 })
    }

    fn give_back(&mut self, source: DiskSource) {
        self.faults = self.faults.saturating_add(source.faults);
    }
}

/// A file that is read.
#[derive(Drop)]
pub struct DiskSource {
    file: File,
    faults: u64,
}

impl Source for DiskSource {
    ghost rest = { λ _. None };

    ghost faults = { λ s. s.faults };

    fn read(&mut self, buf: &mut [u8]) -> Result<usize, Failed> {
        match self.file.read(buf) {
            Ok(count) => Ok(count),
            Err(_) => {
                self.faults = self.faults.saturating_add(1);
                Err(Failed)
            }
        }
    }
}
