//! Targets of files.

ghost use Rattle.std.specs.Prelude.{◌≡◌, true, Option, Ok, Err, IfOk, IfErr, OnOk, OnErr};
ghost use Rattle.tough_files.specs.Contents.{Node, Same};
ghost use Rattle.tough_names.specs.Named.{Named};
ghost use Rattle.tough_schema.specs.FileDigest.{there};
ghost use Rattle.tough_schema.specs.FromPath.{IsTargetOf};
ghost use Rattle.tough_edit.specs.Files.{IsNamed, IsNoTarget, IsAdded, IsAddedOf, AreAdded, AreAddedOf, SomeAdded, IsStopped};
ghost use Rattle.tough_edit.specs.Edits.{edits_doc};

use crate::edits::TargetEdits;
use std::alloc::Global;
use std::path::Path;
use tough_files::Files;
use tough_names::{NameError, TargetName};
use tough_schema::{FileError, Target};
use tough_signed::EditError;

// The name of the path's last component.
fn name_of(alloc: Global, path: &str) -> Result<TargetName, EditError>
    ensures name { IfOk result (IsNamed path.now) }
    ensures refused { (n : Option Node) → IfErr result (IsNoTarget path.now n) }
{
    let Some(last) = Path::new(path).file_name() else {
        return Err(EditError::NoFileName {
            path: String::from_str(alloc, path)?,
        });
    };
    match TargetName::from_str(alloc, last) {
        Ok(name) => Ok(name),
        Err(NameError::Memory) => Err(EditError::Memory),
        Err(error) => Err(EditError::Name(error)),
    }
}

// The error for a file that is no target.
fn untargeted(alloc: Global, path: &str, error: FileError) -> EditError
    ensures { (n : Option Node) (name : Named) → IsNamed path.now name
        → IsTargetOf n (Err error) → IsNoTarget path.now n result }
{
    match error {
        FileError::Memory => EditError::Memory,
        source => match String::from_str(alloc, path) {
            Ok(path) => EditError::TargetFromPath { path, source },
            Err(_) => EditError::Memory,
        },
    }
}

/// The last component of the path as a target's name, and the target that the file there is. The refusals, in this order: `NoFileName`, those of the
/// name, `TargetFromPath`.
pub fn build_target<F: Files>(
    alloc: Global,
    files: &mut F,
    path: &str,
) -> Result<(TargetName, Target), EditError>
    ensures name { IfOk result (λ p. IsNamed path.now p.0) }
    ensures target { F.tells ≡ true → IfOk result
        (λ p. IsTargetOf (there path.now (F.contents files.old)) (Ok p.1)) }
    ensures refused { F.tells ≡ true
        → IfErr result (IsNoTarget path.now (there path.now (F.contents files.old))) }
    ensures kept { F.tells ≡ true → Same (F.contents files.old) (F.contents files.new) }
{
    let name = name_of(alloc, path)?;
    match Target::from_path(alloc, files, path) {
        Ok(target) => Ok((name, target)),
        Err(error) => Err(untargeted(alloc, path, error)),
    }
}

impl TargetEdits {
    /// Adds what `build_target` makes of the path, as `add_target` does; its refusals.
    pub fn add_target_path<F: Files>(
        &mut self,
        alloc: Global,
        files: &mut F,
        path: &str,
    ) -> Result<(), EditError>
        ensures added { OnOk result (IsAdded path.now (edits_doc self.old) (edits_doc self.new)) }
        ensures target { F.tells ≡ true → OnOk result (IsAddedOf path.now
            (there path.now (F.contents files.old)) (edits_doc self.old) (edits_doc self.new)) }
        ensures refused { F.tells ≡ true
            → IfErr result (IsNoTarget path.now (there path.now (F.contents files.old))) }
        ensures unchanged { OnErr result (edits_doc self.new ≡ edits_doc self.old) }
        ensures kept { F.tells ≡ true → Same (F.contents files.old) (F.contents files.new) }
    {
        let (name, target) = build_target(alloc, files, path)?;
        self.add_target(name, target)?;
        Ok(())
    }

    /// Adds each path as `add_target_path` does, in order; its refusals, by which the paths before it stay added.
    pub fn add_target_paths<F: Files>(
        &mut self,
        alloc: Global,
        files: &mut F,
        paths: &[&str],
    ) -> Result<(), EditError>
        ensures added { OnOk result (AreAdded paths.now (edits_doc self.old) (edits_doc self.new)) }
        ensures targets { F.tells ≡ true → OnOk result (AreAddedOf (F.contents files.old) paths.now
            (edits_doc self.old) (edits_doc self.new)) }
        ensures refused { F.tells ≡ true → IfErr result (IsStopped (F.contents files.old) paths.now
            (edits_doc self.old) (edits_doc self.new)) }
        ensures some { OnErr result
            (SomeAdded paths.now (edits_doc self.old) (edits_doc self.new)) }
        ensures kept { F.tells ≡ true → Same (F.contents files.old) (F.contents files.new) }
    {
        for path in paths {
            self.add_target_path(alloc, files, path)?;
        }
        Ok(())
    }
}
