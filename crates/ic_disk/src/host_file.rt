ghost use Rattle.std.specs.Prelude.{◌≡◌, IfOk};

use crate::host_folder::{Access, HostFolder};
use crate::write_back::write_back;
use std::alloc::{AllocError, Global};
use std::fs::{File, Metadata, OpenOptions};
use std::io::ErrorKind;
use std::os::fd::AsRawFd;
use std::os::unix::fs::{FileExt, MetadataExt, OpenOptionsExt};
use std::{fs, io};

/// A file of the host by its name, opened and locked at first use (docs/FORMATS.md, "The files of logs").
#[derive(Drop)]
pub(crate) struct HostFile {
    rt: HostRuntime,
    name: Vec<u8>,
    folder: HostFolder,
    /// The file, once it was found or made.
    file: Option<File>,
    /// Whether the file was looked for.
    is_sought: bool,
    /// Whether the file was made here, and its name isn't synced yet.
    is_new: bool,
    /// Whether a sync that failed, here or in an earlier program, may have left bytes that the medium hasn't.
    is_in_doubt: bool,
}

/// The descriptors of standard input, output and error are these and those below.
const STANDARD_ERROR: i32 = 2;

/// A file that is made is read and written by its owner, as far as the process's mask lets.
const OWNER_ALONE: u32 = 0o600;

// The file on a descriptor of which no standard stream is known: one of those may have been closed before the program began.
fn above_standard(file: File) -> io::Result<File> {
    if file.as_raw_fd() > STANDARD_ERROR {
        return Ok(file);
    }
    file.try_clone()
}

// The name of the folder of a file.
fn folder_of(name: &str) -> &str {
    match name.rfind('/') {
        Some(0) => "/",
        Some(end) => &name[..end],
        None => ".",
    }
}

// Whether the file that was opened is the one that has the name, and has no other name.
fn has_one_name(named: &Metadata, opened: &Metadata) -> bool {
    named.is_file()
        && opened.nlink() == 1
        && named.dev() == opened.dev()
        && named.ino() == opened.ino()
}

impl HostFile {
    pub(crate) fn new(
        alloc: Global,
        rt: HostRuntime,
        folder: HostFolder,
        name: &[u8],
    ) -> Result<HostFile, AllocError>
        ensures { IfOk result (λ f. f.name.items ≡ name.now) }
    {
        let name = Vec::from_slice(alloc, name)?;
        Ok(HostFile {
            rt,
            name,
            folder,
            file: None,
            is_sought: false,
            is_new: false,
            is_in_doubt: false,
        })
    }

    fn path(&self) -> io::Result<&str> {
        str::from_utf8(self.name.as_slice()).map_err(|_| io::Error::from(ErrorKind::InvalidInput))
    }

    // Opens the file with these options, and locks it: for this log alone, or beside others that read it.
    fn opened(&self, options: &OpenOptions) -> io::Result<File> {
        let file = above_standard(options.open(&self.rt, self.path()?)?)?;
        match self.folder.access() {
            Access::Read => file.try_lock_shared()?,
            Access::Write => file.try_lock()?,
        }
        Ok(file)
    }

    // Opens the file that stands there. One that is no file of its own, as a link is, is a fault.
    fn found(&self, named: &Metadata) -> io::Result<File> {
        if !named.is_file() {
            return Err(io::Error::from(ErrorKind::InvalidInput));
        }
        let writes = self.folder.access() == Access::Write;
        let file = self.opened(OpenOptions::new().read(true).write(writes))?;
        if has_one_name(named, &file.metadata()?) {
            Ok(file)
        } else {
            Err(io::Error::from(ErrorKind::InvalidInput))
        }
    }

    // Opens the file at first use, where it is there.
    fn find(&mut self) -> io::Result<()> {
        if self.is_sought {
            return Ok(());
        }
        match fs::symlink_metadata(&self.rt, self.path()?) {
            Ok(named) => {
                self.file = Some(self.found(&named)?);
                self.is_in_doubt = true;
            }
            Err(e) if e.kind() == ErrorKind::NotFound => {}
            Err(e) => return Err(e),
        }
        self.is_sought = true;
        Ok(())
    }

    // Makes the file where it wasn't there. One that someone else has made since is a fault.
    fn make(&mut self) -> io::Result<()> {
        self.find()?;
        if self.file.is_none() {
            let mut options = OpenOptions::new();
            options
                .read(true)
                .write(true)
                .create_new(true)
                .mode(OWNER_ALONE);
            self.file = Some(self.opened(&options)?);
            self.is_new = true;
        }
        Ok(())
    }

    pub(crate) fn length(&mut self) -> io::Result<u64> {
        self.find()?;
        match &self.file {
            Some(file) => Ok(file.metadata()?.len()),
            None => Ok(0),
        }
    }

    /// Fills the buffer from an offset on.
    pub(crate) fn read_at(&mut self, at: u64, buffer: &mut [u8]) -> io::Result<()> {
        self.find()?;
        match &self.file {
            Some(file) => file.read_exact_at(buffer, at),
            None if buffer.is_empty() => Ok(()),
            None => Err(io::Error::from(ErrorKind::UnexpectedEof)),
        }
    }

    /// Writes all the bytes from an offset on, to a new file where there was none.
    pub(crate) fn write_at(&mut self, at: u64, bytes: &[u8]) -> io::Result<()> {
        if self.folder.access() == Access::Read {
            return Err(io::Error::from(ErrorKind::PermissionDenied));
        }
        self.make()?;
        match &self.file {
            Some(file) => file.write_all_at(bytes, at),
            None => Err(io::Error::from(ErrorKind::NotFound)),
        }
    }

    /// Syncs the file, and its folder where this program hasn't yet. What may not be on the medium is written once more
    /// before. A file that is only read has nothing to sync.
    pub(crate) fn sync(&mut self) -> io::Result<()> {
        self.find()?;
        let Some(file) = &self.file else {
            return Ok(());
        };
        if self.folder.access() == Access::Read {
            return Ok(());
        }
        if self.is_in_doubt {
            write_back(file)?;
        }
        self.is_in_doubt = true;
        file.sync_all()?;
        self.is_in_doubt = false;
        self.sync_folder()
    }

    // Syncs the folder where the file was made here, or where no file of this program has done so.
    fn sync_folder(&mut self) -> io::Result<()> {
        if !self.is_new && self.folder.is_synced() {
            return Ok(());
        }
        let folder = OpenOptions::new()
            .read(true)
            .open(&self.rt, folder_of(self.path()?))?;
        match folder.sync_all() {
            Ok(()) => {}
            // Its file system has no sync of folders.
            Err(e) if e.kind() == ErrorKind::InvalidInput => {}
            Err(e) => return Err(e),
        }
        self.folder.mark_synced();
        self.is_new = false;
        Ok(())
    }
}
