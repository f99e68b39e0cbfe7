//! The file of a store. It tells nothing of content.
ghost use Rattle.std.specs.Prelude.{◌≡◌, ◌≤◌, ◌↔◌, IfOk, IsErr, IsTrue};
ghost use Rattle.std.specs.Fd.{file_raw_fd};
ghost use Rattle.site_edge.specs.Files.{IsStandard, IsOwn, untouched, file_device, file_device_is_sound};

use crate::fault::counted;
use crate::progress::Progress;
use crate::streams::{STREAMS, is_of, most_bytes};
use crate::{Aside, FileFailed};
use disk_trait::{Disk, Failed, Text};
use std::fs::{File, OpenOptions, TryLockError};
use std::io::ErrorKind;
use std::marker::Model;
use std::os::fd::AsRawFd;
use std::os::unix::fs::FileExt;
use std::path::Path;
use std::rt::Files;
use std::{io, str};

/// How many bytes lie between two places of the file behind which writing to the disk begins.
const STRETCH: u64 = 524_288;

/// A file of fixed size that this process holds the lock of while it is open.
///
/// A sync that failed may have left bytes in the system's copies of the file's pages that the disk doesn't
/// have. So opening syncs the file and drops those copies, and what is read then comes from the disk.
#[derive(Drop)]
pub struct StoreFile {
    file: File,
    size: u64,
    /// How many bytes the process might have in a file when this one was opened.
    most: u64,
    faults: u64,
    progress: Option<Progress>,
}

impl Model for StoreFile {
    ghost use Rattle.std.specs.Fd.{file_raw_fd};
    ghost use Rattle.site_edge.specs.Files.{FileState, IsOwn};

    ghost Value = { FileState };

    ghost view = { λ f. record { descriptor = file_raw_fd f.file; size = f.size; faults = f.faults } };

    ghost invariant = { λ f. IsOwn (file_raw_fd f.file) };
}

impl StoreFile {
    /// Opens the file at this path. It fails where none is there, where the path isn't UTF-8, where another
    /// open of the file holds its lock, where a call of the system fails, where the file got a standard
    /// stream's descriptor, and where a standard stream leads to the same file.
    pub fn open<R: Files<File = File>>(rt: &R, path: &Text) -> Result<StoreFile, FileFailed>
        ensures untouched { IfOk result (λ file. file ≡ untouched file.descriptor file.size) }
        ensures own { IfOk result (λ file. IsOwn file.descriptor) }
    {
        let mut options = OpenOptions::new();
        options.read(true).write(true);
        let file = locked(own(options.open(rt, path_text(path)?)?)?)?;
        let size = file.metadata()?.len();
        StoreFile::settled(file, size)
    }

    /// Opens the file at this path, or makes it where none is there, lengthens it to this length in
    /// bytes where it is shorter, and syncs it and its folder. No byte that is there changes. It fails as
    /// `open` does.
    pub fn make<R: Files<File = File>>(
        rt: &R,
        path: &Text,
        length: u64,
    ) -> Result<StoreFile, FileFailed>
        ensures untouched { IfOk result (λ file. file ≡ untouched file.descriptor file.size) }
        ensures own { IfOk result (λ file. IsOwn file.descriptor) }
        ensures long_enough { IfOk result (λ file. length ≤ file.size) }
    {
        let text = path_text(path)?;
        let mut options = OpenOptions::new();
        options.read(true).write(true).create(true);
        let file = locked(own(options.open(rt, text)?)?)?;
        let size = file.metadata()?.len();
        if size < length {
            lengthen(&file, length)?;
        }
        sync_folder(rt, text)?;
        StoreFile::settled(file, size.max(length))
    }

    /// The file of this length, once it is synced and the system's copies of its pages are dropped.
    fn settled(file: File, size: u64) -> Result<StoreFile, FileFailed>
        requires { IsOwn (file_raw_fd file) }
        ensures { IfOk result (λ made. made ≡ untouched (file_raw_fd file) size) }
    {
        file.sync_all()?;
        let status = libc::posix_fadvise(file.as_raw_fd(), 0, 0, libc::POSIX_FADV_DONTNEED);
        if status != 0 {
            return Err(FileFailed::System(io::Error::from_raw_os_error(status)));
        }
        Ok(StoreFile {
            file,
            size,
            most: most_bytes(),
            faults: 0,
            progress: None,
        })
    }

    /// From now on it is shown how far what this word names is, where the run has a terminal.
    pub fn show_progress(&mut self, aside: Aside, word: &'static str)
        ensures { self.new ≡ self.old }
    {
        if aside.shows() {
            self.progress = Some(Progress::new(aside, word, self.size));
        }
    }

    /// Progress is shown no more.
    pub(crate) fn end_progress(&mut self)
        ensures { self.new ≡ self.old }
    {
        if let Some(progress) = &self.progress {
            progress.end();
        }
        self.progress = None;
    }
}

impl Disk for StoreFile {
    ghost device = { file_device };

    ghost fails = { λ _ _ _ _. Unit {0} };

    ghost sound = { file_device_is_sound };

    fn len(&self) -> u64 {
        self.size
    }

    fn read_at(&mut self, at: u64, out: &mut [u8]) -> Result<(), Failed> {
        let answer = self.file.read_exact_at(out, at);
        if let Some(progress) = &mut self.progress {
            progress.read(out.len());
        }
        counted(answer, &mut self.faults, Failed)
    }

    fn write_at(&mut self, at: u64, bytes: &[u8]) -> Result<(), Failed> {
        let answer = write_within_limit(&self.file, self.most, at, bytes);
        begin_writing(&self.file, at, bytes.len() as u64);
        if let Some(progress) = &mut self.progress {
            progress.write(bytes.len());
        }
        counted(answer, &mut self.faults, Failed)
    }

    fn sync(&mut self) -> Result<(), Failed> {
        let answer = self.file.sync_data();
        counted(answer, &mut self.faults, Failed)
    }
}

/// Writes these bytes, unless they end behind the most bytes that the file may have.
fn write_within_limit(file: &File, most: u64, at: u64, bytes: &[u8]) -> io::Result<()> {
    if at.saturating_add(bytes.len() as u64) > most {
        return Err(io::Error::from(ErrorKind::FileTooLarge));
    }
    file.write_all_at(bytes, at)
}

/// Makes the file this long, unless the process may not have files of that length.
fn lengthen(file: &File, length: u64) -> io::Result<()> {
    if length > most_bytes() {
        return Err(io::Error::from_raw_os_error(libc::EFBIG));
    }
    file.set_len(length)
}

/// Where so many bytes from this place on come to the end of a stretch, the system is told that the stretch isn't
/// read soon. It begins to write it to the disk then, so that the next sync has less to wait for. Nothing rests on
/// the answer: a write that fails is told by that sync.
fn begin_writing(file: &File, at: u64, count: u64) {
    let ended = at.saturating_add(count) / STRETCH;
    if at / STRETCH == ended {
        return;
    }
    if let Ok(start) = i64::try_from((ended - 1) * STRETCH) {
        let advice = libc::POSIX_FADV_DONTNEED;
        libc::posix_fadvise(file.as_raw_fd(), start, STRETCH as i64, advice);
    }
}

/// The text of a path, where it is UTF-8.
fn path_text(path: &Text) -> Result<&str, FileFailed> {
    match str::from_utf8(path.bytes()) {
        Ok(text) => Ok(text),
        Err(_) => Err(FileFailed::NoText),
    }
}

/// Refuses a file that was opened as a standard stream, which was closed before: what is said there would
/// land in the file.
fn own(file: File) -> Result<File, FileFailed>
    ensures same { IfOk result (λ opened. opened ≡ file) }
    ensures refused { IsErr result ↔ IsStandard (file_raw_fd file) }
    ensures own { IfOk result (λ opened. IsOwn (file_raw_fd opened)) }
{
    if is_standard(file.as_raw_fd()) {
        Err(FileFailed::IsStream)
    } else {
        Ok(file)
    }
}

/// Whether the descriptor is a standard stream's.
fn is_standard(descriptor: i32) -> bool
    ensures { IsTrue result ↔ IsStandard descriptor }
{
    descriptor <= 2
}

/// Takes the file's lock, unless another open of it holds it, and refuses a file to which a standard
/// stream leads: what is said there would land in it.
fn locked(file: File) -> Result<File, FileFailed>
    ensures { IfOk result (λ opened. opened ≡ file) }
{
    for stream in &STREAMS {
        if is_of(*stream, &file) {
            return Err(FileFailed::IsStream);
        }
    }
    match file.try_lock() {
        Ok(()) => Ok(file),
        Err(TryLockError::WouldBlock) => Err(FileFailed::InUse),
        Err(TryLockError::Error(error)) => Err(FileFailed::System(error)),
    }
}

/// Syncs the folder in which the file of this path lies, so that its name is on the disk too.
fn sync_folder<R: Files<File = File>>(rt: &R, path: &str) -> Result<(), FileFailed> {
    let folder = match Path::new(path).parent() {
        Some(folder) => folder.as_str(),
        None => return Err(FileFailed::System(io::Error::from_raw_os_error(libc::EISDIR))),
    };
    let folder = if folder.is_empty() { "." } else { folder };
    File::open(rt, folder)?.sync_all()?;
    Ok(())
}
