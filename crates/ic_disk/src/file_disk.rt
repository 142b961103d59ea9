ghost use Rattle.std.specs.Prelude.{◌≡◌, ◌≢◌, ◌^◌, true, [], IfOk, Err};
ghost use Rattle.ic_disk.specs.Causes.{IsCaused};
ghost use Rattle.ic_disk.specs.Stops.{no_stop};
ghost use Rattle.ic_disk.specs.declared.disk.DiskError.TheVariants.{Memory};

use crate::call_count::CallCount;
use crate::host_file::HostFile;
use crate::{Disk, DiskError, HostFolder};
use ic_base::Word;
use std::alloc::{AllocError, Global};
use std::io;
use std::marker::Model;

/// A file of the host as a disk. It tells no bytes: what the host does is trusted. From its first use on it is locked, and
/// a file that another program has locked is a fault; one that is only read is shared with others that only read it.
#[derive(Drop)]
pub struct FileDisk {
    host: HostFile,
    faults: u64,
    made: CallCount,
}

// Contracts see a file as its name and its counts.
impl Model for FileDisk {
    ghost use Rattle.ic_disk.specs.Memory.{HostDisk};

    ghost Value = { HostDisk };

    ghost view = { λ s. record { name = s.host.name.items; faults = s.faults; made = s.made.made } };
}

impl FileDisk {
    /// The file of a name in a folder, which is opened at first use and made by the first write.
    pub fn new(
        alloc: Global,
        rt: HostRuntime,
        folder: &HostFolder,
        name: &Word,
    ) -> Result<FileDisk, AllocError>
        ensures { IfOk result (λ d. d ≡ record { name = name.now; faults = 0; made = 0 }) }
    {
        let host = HostFile::new(alloc, rt, folder.share()?, name.as_slice())?;
        Ok(FileDisk {
            host,
            faults: 0,
            made: CallCount::new(),
        })
    }
}

// What the host answered, where a failure is counted.
fn counted<T>(faults: &mut u64, answer: io::Result<T>) -> Result<T, DiskError>
    ensures cause { IsCaused faults.old faults.new ⊥ result }
    ensures no_memory { result ≢ Err Memory }
{
    match answer {
        Ok(value) => Ok(value),
        Err(_) => {
            *faults = faults.saturating_add(1);
            Err(DiskError::Failed)
        }
    }
}

impl Disk for FileDisk {
    ghost tells = { λ d. ⊥ };

    ghost seen = { λ d. [] };

    ghost keeps = { λ d. ⊥ };

    ghost may_leave = { λ d image. ⊥ };

    ghost moment = { λ d. 0 };

    ghost left_since = { λ d time image. ⊥ };

    ghost settled = { λ d. true };

    ghost faults = { λ d. d.faults };

    ghost spare = { λ d. 2 ^ 64 };

    ghost stopped = { λ d. ⊥ };

    ghost calls = { λ d. d.made };

    ghost calls_within = { λ d. 0 };

    ghost stop = { λ d. no_stop };

    ghost keeping_tells = { λ d keeps. absurd keeps };

    ghost read_may_stay = { λ d keeps. absurd keeps };

    ghost counts_now = { λ d time image keeps settled earlier left. absurd keeps };

    ghost only_now = { λ d image keeps left. absurd keeps };

    fn fault_count(&self) -> u64 {
        self.faults
    }

    fn reserve(&mut self, _alloc: Global, _bytes: usize) -> Result<(), DiskError> {
        Ok(())
    }

    fn length(&mut self) -> Result<u64, DiskError> {
        self.made = CallCount::after(&self.made);
        let answer = self.host.length();
        counted(&mut self.faults, answer)
    }

    fn read_at(&mut self, alloc: Global, at: u64, count: usize) -> Result<Vec<u8>, DiskError> {
        let mut buffer = vec![in alloc; 0u8; count]?;
        self.made = CallCount::after(&self.made);
        let answer = self.host.read_at(at, buffer.as_mut_slice());
        match counted(&mut self.faults, answer) {
            Ok(()) => Ok(buffer),
            Err(e) => Err(e),
        }
    }

    fn write_at(&mut self, at: u64, bytes: &[u8]) -> Result<(), DiskError> {
        self.made = CallCount::after(&self.made);
        let answer = self.host.write_at(at, bytes);
        counted(&mut self.faults, answer)
    }

    fn sync(&mut self) -> Result<(), DiskError> {
        self.made = CallCount::after(&self.made);
        let answer = self.host.sync();
        counted(&mut self.faults, answer)
    }
}
