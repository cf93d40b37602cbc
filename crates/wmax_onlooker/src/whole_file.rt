//! A file that is whole at each moment: a text is written beside it and then renamed over it, so
//! that whoever kills the program finds the text before or the one after.
ghost use Rattle.std.specs.Prelude.{◌≡◌, ◌↔◌, IfOk, IfErr, IsTrue, string_bytes};
ghost use Rattle.wmax_onlooker.specs.FileId.{file_name_of};
ghost use Rattle.wmax_onlooker.specs.Files.{IsFileFault};
ghost use Rattle.wmax_onlooker.specs.WholeFile.{TakesName, TakesPlace, part_path};

use crate::file_id::{FileId, FilePlace, find_place, is_taken, open_empty};
use crate::files::{UNREADABLE, read_file};
use crate::standard_error::Messages;
use explain_text::showing::Shown;
use report_text::fault::RunFault;
use std::alloc::AllocError;
use std::fs::{self, File};
use std::io::Write;
use std::rt::Files;
use text::output::WriteFault;

/// What stands behind the path in the name of the file that is renamed.
const ENDING: &str = ".part";

/// The path of such a file, and that of the text before it is whole.
#[derive(Drop)]
pub struct WholePaths<'a> {
    /// The path that was named.
    path: &'a str,
    /// Where a text is written before it is whole: beside it.
    part: String,
    /// Where the file of the path stands, or would.
    place: FilePlace<'a>,
}

impl<'a> WholePaths<'a> {
    /// The files for this path.
    ///
    /// # Errors
    ///
    /// `AllocError` where memory was refused.
    pub fn new<R: Files + AllocGlobal>(rt: &R, path: &'a str) -> Result<Self, AllocError>
        ensures path { IfOk result (λ paths. paths.path.now ≡ path.now) }
        ensures part { IfOk result (λ paths. string_bytes paths.part ≡ part_path path.now) }
        ensures name { IfOk result (λ paths. paths.place.name.now ≡ file_name_of path.now) }
    {
        let mut part = String::with_capacity(rt.alloc(), path.len() + ENDING.len())?;
        part.push_str(path)?;
        part.push_str(ENDING)?;
        Ok(WholePaths {
            path,
            part,
            place: find_place(rt, path),
        })
    }

    /// Whether a file at this place would be one of the two.
    pub fn meets(&self, other: &FilePlace<'_>) -> bool
        ensures takes { IsTrue result ↔ TakesPlace self.now.place other.now }
    {
        self.place.is_beside(other) && takes_name(self.place.name, other.name)
    }

    /// Whether the text before it is whole would go into one of the others.
    pub fn is_part_taken<R: Files>(&self, rt: &R, others: &[FileId]) -> bool {
        is_taken(rt, &self.part, others)
    }

    /// Whether one of the two is one of the others, a symbolic link, or no regular file: a device
    /// or a link would be replaced by a file.
    pub fn are_taken<R: Files>(&self, rt: &R, others: &[FileId]) -> bool {
        is_taken(rt, self.path, others) || is_taken(rt, &self.part, others)
    }

    /// What an earlier run left; nothing where there is no file.
    ///
    /// # Errors
    ///
    /// `Read` where there is a file that cannot be read; `Memory`.
    pub fn read_earlier<R: Files + AllocGlobal>(&self, rt: &R) -> Result<Vec<u8>, RunFault>
        ensures fault { IfErr result IsFileFault }
    {
        if fs::metadata(rt, self.path).is_err() {
            return Ok(Vec::new(rt.alloc()));
        }
        let mut file = File::open(rt, self.path).map_err(|_| UNREADABLE)?;
        read_file(rt, &mut file)
    }
}

/// Whether the file that is kept whole under the first name, or its text before that is whole, has
/// the other name.
fn takes_name(name: &str, other: &str) -> bool
    ensures { IsTrue result ↔ TakesName name.now other.now }
{
    name == other || is_part(other, name)
}

/// Whether the first name is the second with the ending.
fn is_part(part: &str, name: &str) -> bool
    ensures { IsTrue result ↔ (part.now ≡ part_path name.now) }
{
    match part.strip_suffix(ENDING) {
        Some(stem) => stem == name,
        None => false,
    }
}

/// A file that is whole at each moment. What cannot be written is told once and changes nothing
/// else; the next text is tried again.
#[derive(Drop)]
pub(crate) struct WholeFile<'a, R: Files> {
    /// Where files are.
    rt: &'a R,
    /// Where it is.
    paths: WholePaths<'a>,
    /// What is not written into, also where it was linked to the name since.
    others: [FileId; 2],
    /// Whether a failure was told.
    is_told: bool,
}

impl<'a, R: Files> WholeFile<'a, R> {
    /// The file of these paths, which is none of the others. Nothing is written yet.
    pub(crate) fn new(rt: &'a R, paths: WholePaths<'a>, others: [FileId; 2]) -> Self {
        WholeFile {
            rt,
            paths,
            others,
            is_told: false,
        }
    }

    /// Where a first text goes, empty; none where it cannot be written.
    pub(crate) fn try_begin(&self) -> Option<R::File> {
        open_empty(self.rt, &self.paths.part, &self.others)
    }

    /// Puts a first text in its place; whether it could.
    pub(crate) fn try_end(&self) -> bool {
        fs::rename(self.rt, &self.paths.part, self.paths.path).is_ok()
    }

    /// Takes a first text away again; whether it could.
    pub(crate) fn try_drop(&self) -> bool {
        fs::remove_file(self.rt, &self.paths.part).is_ok()
    }

    /// Where the next text goes, empty; none where it cannot be written.
    pub(crate) fn begin<E: Write>(&mut self, messages: &mut Messages<'_, E>) -> Option<R::File> {
        let file = self.try_begin();
        if file.is_none() {
            self.fail(messages);
        }
        file
    }

    /// Puts the text that was written in its place; a broken one is taken away. Whether the text
    /// stands now.
    pub(crate) fn end<E: Write>(
        &mut self,
        written: Result<(), WriteFault>,
        messages: &mut Messages<'_, E>,
    ) -> bool {
        if written.is_ok() && self.try_end() {
            return true;
        }
        let _ = self.try_drop();
        self.fail(messages);
        false
    }

    /// Tells the first failure.
    fn fail<E: Write>(&mut self, messages: &mut Messages<'_, E>) {
        if self.is_told {
            return;
        }
        self.is_told = true;
        let path = Shown(self.paths.path);
        let _ = writeln!(messages.below(), "warning: {path} cannot be written");
    }
}
