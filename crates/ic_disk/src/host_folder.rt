use std::alloc::{AllocError, Global};
use std::sync::Arc;
use std::sync::atomic::{AtomicBool, Ordering};

/// What a program may do with its files.
#[derive(Clone, Copy, Debug, PartialEq, Eq)]
pub enum Access {
    /// They are read, beside other programs that read them. No file is made, written or synced.
    Read,
    /// They are read and written by this program alone.
    Write,
}

/// The folder of a program's files, which their disks share (docs/FORMATS.md, "The files of logs").
#[derive(Drop)]
pub struct HostFolder {
    access: Access,
    is_synced: Arc<AtomicBool, Global>,
}

impl HostFolder {
    /// A folder whose names this program hasn't synced yet.
    pub fn new(alloc: Global, access: Access) -> Result<HostFolder, AllocError> {
        let is_synced = Arc::new(alloc, AtomicBool::new(false))?;
        Ok(HostFolder { access, is_synced })
    }

    /// The same folder, for one more disk.
    pub(crate) fn share(&self) -> Result<HostFolder, AllocError> {
        let is_synced = Arc::try_clone(&self.is_synced)?;
        Ok(HostFolder {
            access: self.access,
            is_synced,
        })
    }

    pub(crate) fn access(&self) -> Access {
        self.access
    }

    /// Whether a disk of this program has synced the folder.
    pub(crate) fn is_synced(&self) -> bool {
        self.is_synced.load(Ordering::SeqCst)
    }

    pub(crate) fn mark_synced(&self) {
        self.is_synced.store(true, Ordering::SeqCst);
    }
}
