//! What stands in a folder whose files were replaced.

ghost use Rattle.std.specs.Prelude.{◌≡◌, ℕ, List, [], ◌∷◌, ◌++◌};
ghost use Rattle.tough_files.specs.Contents.{Contents};
ghost use Rattle.tough_write.specs.Replacing.{AreReplaced, FileDoc, IsNoTemporary, IsNoneOf, StopsAmong, last_in};
ghost use Rattle.tough_write.specs.declared.replace.ReplaceError.{ReplaceError};

/// Once files were replaced, at each path stands the last of them that has it, or what stood there before.
pub fn replaced_holds()
    ensures { (folder : List ℕ) (files : List FileDoc) (before after : Contents)
        → AreReplaced folder files before after → (path : List ℕ)
        → after path ≡ last_in folder path files (before path) }
{}

/// Where replacing files stops, at each path that none of them but the last has, and no temporary file of the folder, stands what stood there
/// before: the last one's old file is there still.
pub fn stopped_keeps()
    ensures { (folder : List ℕ) (files : List FileDoc) (last : FileDoc) (e : ReplaceError)
        (before after : Contents) → StopsAmong folder (files ++ (last ∷ [])) e before after
        → (path : List ℕ) → IsNoneOf folder files path → IsNoTemporary folder path
        → after path ≡ before path }
{}
