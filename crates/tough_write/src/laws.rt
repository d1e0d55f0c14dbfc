//! A law on what was written.

ghost use Rattle.std.specs.Prelude.{ℕ, List};
ghost use Rattle.std.specs.List.{AllByRecursion};
ghost use Rattle.tough_files.specs.Contents.{Contents};
ghost use Rattle.tough_write.specs.Filling.{Fills, HasNoLink, ReadsBack, file_path};
ghost use Rattle.tough_write.specs.Writing.{FileDoc};

/// Once files were written into a folder, as `write_roles` does, each holds exactly its bytes, where no link stood at the path of one of
/// them; of two of one name it is the later one. A file at any other path holds what it held.
pub fn written_reads_back()
    ensures { (outdir : List ℕ) (files : List FileDoc) (before after : Contents)
        → AllByRecursion (λ f. HasNoLink before (file_path outdir f)) files
        → Fills outdir files before after → ReadsBack outdir files before after }
{}
