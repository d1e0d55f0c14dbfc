//! The files of a folder, and of those below it, are copied or linked.

ghost use Rattle.std.specs.Prelude.{◌≡◌, ℕ, None, true, string_bytes};
ghost use Rattle.tough_write.specs.Putting.{manner_of};
ghost use Rattle.tough_write.specs.Walking.{Lists, Looks, LooksInner, PutsAll, Takes, VisitsPath, Walks};

use crate::error::{OutputError, Step, refusal};
use crate::put::Putting;
use crate::write::{make_folders, resolve};
use std::alloc::Global;
use std::path::Path;
use tough_files::{FileKind, Files, FilesError};

// The most folders below one that is walked.
const MAX_DEPTH: u32 = 128;

// What is done with what stands at a path.
#[derive(Clone, Copy, Drop)]
enum Entry {
    File,
    Folder,
    Passed,
}

// The names of what a folder has, in the order of their bytes.
fn names_in<F: Files>(
    alloc: Global,
    files: &mut F,
    root: &str,
    dir: &str,
) -> Result<Vec<String>, OutputError>
    ensures { F.tells ≡ true
        → Lists root.now dir.now result (F.calls files.old) (F.calls files.new) }
{
    match files.list(dir) {
        Ok(names) => {
            let mut names = names;
            names.sort()?;
            Ok(names)
        }
        Err(error) => Err(refusal(alloc, Step::Walk, root, error)),
    }
}

// Whether a folder itself stands there, and not a link to one.
fn inner<F: Files>(
    alloc: Global,
    files: &mut F,
    root: &str,
    path: &str,
) -> Result<Entry, OutputError>
    ensures { F.tells ≡ true
        → LooksInner root.now path.now result (F.calls files.old) (F.calls files.new) }
{
    match files.kind(path, false) {
        Ok(FileKind::Folder) => Ok(Entry::Folder),
        Ok(_) => Ok(Entry::Passed),
        Err(error) => Err(refusal(alloc, Step::Walk, root, error)),
    }
}

// What is done with what stands there.
fn look<F: Files>(
    alloc: Global,
    files: &mut F,
    root: &str,
    path: &str,
) -> Result<Entry, OutputError>
    ensures { F.tells ≡ true
        → Looks root.now path.now result (F.calls files.old) (F.calls files.new) }
{
    match files.kind(path, true) {
        Ok(kind) => match kind {
            FileKind::File => Ok(Entry::File),
            FileKind::Folder => inner(alloc, files, root, path),
            FileKind::Link => Ok(Entry::Passed),
            FileKind::Other => Ok(Entry::Passed),
        },
        Err(error) => Err(refusal(alloc, Step::Walk, root, error)),
    }
}

impl<'b, 'a> Putting<'b, 'a> {
    // Copies or links a file; one that is no target is passed over.
    fn take<F: Files>(&self, files: &mut F, path: &str) -> Result<(), OutputError>
        ensures { F.tells ≡ true
            → Takes (manner_of self.now) path.now result (F.calls files.old) (F.calls files.new) }
    {
        match self.put(files, path, None) {
            Ok(()) => Ok(()),
            Err(OutputError::PathIsNotTarget { path: _ }) => Ok(()),
            Err(error) => Err(error),
        }
    }

    // Puts, walks or passes over what stands there, with at most so many folders from it on.
    #[cycle(walk)]
    fn visit<F: Files>(
        &self,
        files: &mut F,
        root: &str,
        path: &str,
        left: u32,
    ) -> Result<(), OutputError>
        ensures { F.tells ≡ true
            → VisitsPath (manner_of self.now) root.now left path.now result
            (F.calls files.old) (F.calls files.new) }
    {
        let entry = look(self.alloc, files, root, path)?;
        match entry {
            Entry::File => self.take(files, path),
            Entry::Folder => {
                if left == 0 {
                    Err(refusal(self.alloc, Step::Walk, root, FilesError::Failed))
                } else {
                    self.walk(files, root, path, left - 1)
                }
            }
            Entry::Passed => Ok(()),
        }
    }

    // Walks a folder, with at most so many folders below it.
    #[cycle(walk)]
    fn walk<F: Files>(
        &self,
        files: &mut F,
        root: &str,
        dir: &str,
        left: u32,
    ) -> Result<(), OutputError>
        ensures { F.tells ≡ true
            → Walks (manner_of self.now) root.now left dir.now result
            (F.calls files.old) (F.calls files.new) }
    {
        let names = names_in(self.alloc, files, root, dir)?;
        for name in &names {
            let path = Path::new(dir)
                .join(self.alloc, name.as_str())?
                .into_string();
            self.visit(files, root, path.as_str(), left)?;
        }
        Ok(())
    }

    // Copies or links the files of the folder, and of those below it.
    pub(crate) fn put_all<F: Files>(&self, files: &mut F, indir: &str) -> Result<(), OutputError>
        ensures { F.tells ≡ true
            → PutsAll (manner_of self.now) indir.now result (F.calls files.old)
            (F.calls files.new) }
    {
        make_folders(self.alloc, files, self.outdir)?;
        let folder = resolve(self.alloc, files, indir)?;
        let root = folder.as_str();
        self.walk(files, root, root, MAX_DEPTH)
    }
}
