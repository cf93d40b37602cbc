//! Which file one is, and where files are written: never into one that the run reads or writes
//! otherwise. No contract speaks of what files the system has: that is tested.
ghost use Rattle.std.specs.Prelude.{◌≡◌, ◌↔◌, ◌⊎◌, IfErr, IsTrue};
ghost use Rattle.wmax_onlooker.specs.FileId.{IsOneFolder, file_name_of};
ghost use Rattle.wmax_onlooker.specs.Files.{IsFileFault};

use crate::files::UNREADABLE;
use report_text::fault::RunFault;
use std::fs::{self, File, Metadata, OpenFile, OpenOptions};
use std::os::unix::fs::MetadataExt;
use std::path::Path;
use std::rt::Files;

/// Which file one is, by whatever name or link it is found.
#[derive(Clone, Copy, PartialEq, Eq, Drop)]
pub struct FileId {
    /// The number of the device that it stands on.
    dev: u64,
    /// Its number there.
    ino: u64,
}

/// The id of the file that was looked at.
fn file_id_of(data: &Metadata) -> FileId {
    FileId {
        dev: data.dev(),
        ino: data.ino(),
    }
}

/// The id of an open file; none where it cannot be looked at.
pub fn find_file_id<F: OpenFile>(file: &F) -> Option<FileId> {
    match file.metadata() {
        Ok(data) => Some(file_id_of(&data)),
        Err(_) => None,
    }
}

/// The id of the file at the path; none where there is none, or it cannot be looked at.
pub fn find_path_id<R: Files>(rt: &R, path: &str) -> Option<FileId> {
    match fs::metadata(rt, path) {
        Ok(data) => Some(file_id_of(&data)),
        Err(_) => None,
    }
}

/// Where the file of a path stands, or would stand if it were there: two paths with one place are
/// those of one file, however they are spelled.
#[derive(Clone, Copy, Drop)]
pub struct FilePlace<'a> {
    /// Its folder; none where there is none, or it cannot be looked at: then nothing stands there.
    pub(crate) folder: Option<FileId>,
    /// Its name there; empty where the path has none.
    pub(crate) name: &'a str,
}

/// Where the file of this path stands, or would.
pub fn find_place<'a, R: Files>(rt: &R, path: &'a str) -> FilePlace<'a>
    ensures name { result.name.now ≡ file_name_of path.now }
{
    let folder = match Path::new(path).parent() {
        Some(folder) => find_path_id(rt, folder_path(folder.to_str().unwrap_or(""))),
        None => None,
    };
    FilePlace {
        folder,
        name: name_in(path),
    }
}

/// The path of the folder that stands before a name: the current one where nothing does.
fn folder_path(before: &str) -> &str {
    if before.is_empty() { "." } else { before }
}

/// The name that a path has in its folder; empty where it has none.
fn name_in(path: &str) -> &str
    ensures { result.now ≡ file_name_of path.now }
{
    match Path::new(path).file_name() {
        Some(name) => name,
        None => "",
    }
}

impl FilePlace<'_> {
    /// Whether both stand in one folder.
    pub(crate) fn is_beside(&self, other: &FilePlace<'_>) -> bool
        ensures { IsTrue result ↔ IsOneFolder self.now.folder other.now.folder }
    {
        match (self.folder, other.folder) {
            (Some(here), Some(there)) => here == there,
            _ => false,
        }
    }
}

/// Whether the path is that of one of these files, of a symbolic link, or of what is no regular
/// file.
pub(crate) fn is_taken<R: Files>(rt: &R, path: &str, others: &[FileId]) -> bool {
    match fs::symlink_metadata(rt, path) {
        Ok(data) => !data.is_file() || others.contains(&file_id_of(&data)),
        Err(_) => false,
    }
}

/// How a file is opened or created that is written.
fn to_write() -> OpenOptions {
    let mut options = OpenOptions::new();
    options.write(true).create(true);
    options
}

/// Opens or creates the file, and leaves in it what it has. One of the others is refused: the open
/// files are compared and not their paths, so no renaming in between makes a difference. None where
/// the file cannot be opened or looked at, or is refused.
fn open_kept<R: Files>(
    rt: &R,
    options: &OpenOptions,
    path: &str,
    others: &[FileId],
) -> Option<R::File> {
    let Ok(file) = options.open(rt, path) else {
        return None;
    };
    let there = find_file_id(&file)?;
    if others.contains(&there) {
        return None;
    }
    Some(file)
}

/// Empties the file; whether it could. What is no regular file, as a pipe, has nothing to empty.
pub fn empty<F: OpenFile>(file: &F) -> bool {
    match file.metadata() {
        Ok(data) => !data.is_file() || file.set_len(0).is_ok(),
        Err(_) => false,
    }
}

/// Opens or creates the file, and empties it. None where it cannot be opened, looked at or emptied,
/// or is one of the others: that one stays as it is.
pub(crate) fn open_empty<R: Files>(rt: &R, path: &str, others: &[FileId]) -> Option<R::File> {
    let file = open_kept(rt, &to_write(), path, others)?;
    if empty(&file) { Some(file) } else { None }
}

/// Opens or creates the file that the certificate goes to, and leaves in it what it has.
///
/// # Errors
///
/// `ProofOutput` where it cannot be opened or looked at, or is one of those that are read.
pub fn open_proof<R: Files>(rt: &R, path: &str, read: [FileId; 2]) -> Result<R::File, RunFault>
    ensures fault { IfErr result (λ fault. fault ≡ RunFault.ProofOutput) }
{
    match open_kept(rt, &to_write(), path, &read) {
        Some(file) => Ok(file),
        None => Err(RunFault::ProofOutput),
    }
}

/// Opens or creates the file of a certificate that is read and then goes on, and leaves in it what
/// it has.
///
/// # Errors
///
/// `UNREADABLE` where it is there and cannot be read; `ProofOutput` where it cannot be written or
/// looked at, or is one of those that are read.
pub fn open_resumed<R: Files>(rt: &R, path: &str, read: [FileId; 2]) -> Result<R::File, RunFault>
    ensures fault { IfErr result (λ fault. (fault ≡ RunFault.ProofOutput) ⊎ IsFileFault fault) }
{
    let mut options = to_write();
    options.read(true);
    match open_kept(rt, &options, path, &read) {
        Some(file) => Ok(file),
        None if is_hidden(rt, path) => Err(UNREADABLE),
        None => Err(RunFault::ProofOutput),
    }
}

/// Whether there is something at the path that cannot be read.
fn is_hidden<R: Files>(rt: &R, path: &str) -> bool {
    fs::metadata(rt, path).is_ok() && File::open(rt, path).is_err()
}

/// Whether an open file is a regular one, which keeps what is written to it.
pub fn is_regular<F: OpenFile>(file: &F) -> bool {
    match file.metadata() {
        Ok(data) => data.is_file(),
        Err(_) => false,
    }
}
