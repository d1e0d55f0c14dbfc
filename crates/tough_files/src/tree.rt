//! What stands at each path, in memory.
ghost use Rattle.std.specs.Prelude.{◌≡◌, bytes_eq, ℕ, List, [], Some, None, is_some, OnOk, IfOk, OnErr, IfErr, string_bytes, option_map, option_copied, ◌≢◌, ◌++◌, ◌≤◌, length, map, take, drop};
ghost use Rattle.std.specs.List.{list_any};
ghost use Rattle.tough_files.specs.declared.files.FilesError.TheVariants.{Memory};
ghost use Rattle.tough_files.specs.Calls.{done_or, found_or, got_or, named_if, listed_or, named, refused};
ghost use Rattle.tough_files.specs.Contents.{Same, followed, seen, node_at};
ghost use Rattle.tough_files.specs.Contents as there;
ghost use Rattle.tough_files.specs.Changes.{Gives, MakesFolders, Lists, create_outcome, write_outcome, append_outcome, rename_outcome, copy_outcome, link_outcome, remove_outcome, temp_outcome, temp_over, kind_answer, read_answer, canonical_answer};
ghost use Rattle.tough_files.specs.Changes as change;
ghost use Rattle.tough_files.specs.Tree.{node_of, seen_node, contents_of, and_name, entry_names};

use crate::files::{FileKind, FilesError, MAX_LINKS};
use std::alloc::{AllocError, Global};
use std::collections::BTreeMap;
use std::path::Path;

/// What stands at a path.
#[derive(Drop)]
pub(crate) enum Stored {
    File(Vec<u8>),
    Folder,
    Link(String),
}

// The same, to look at.
#[derive(Clone, Copy)]
enum Seen<'a> {
    File(&'a Vec<u8>),
    Folder,
    Link(&'a String),
}

/// What stands at each path.
#[derive(Drop)]
pub(crate) struct Tree {
    alloc: Global,
    nodes: BTreeMap<String, Stored>,
}

// Whether this is the root, or the current folder: it has no parent.
fn is_base(path: &str) -> bool
    ensures { result ≡ there.is_base path.now }
{
    match Path::new(path).parent() {
        None => true,
        Some(_) => false,
    }
}

impl Tree {
    pub(crate) fn new(alloc: Global) -> Tree
        ensures { (path : List ℕ) → contents_of result path ≡ None }
    {
        Tree {
            alloc,
            nodes: BTreeMap::new(alloc),
        }
    }

    // The path behind the links at this path.
    #[tactic(auto, using(crate::proofs::Following::past, crate::proofs::Following::stays, crate::proofs::Following::ends))]
    fn follow<'a>(&'a self, path: &'a str) -> &'a str
        ensures { result.now ≡ followed (contents_of self.now) path.now }
    {
        let mut path = path;
        for _ in 0..MAX_LINKS {
            match self.node(path) {
                Some(Seen::Link(target)) => path = target.as_str(),
                Some(Seen::File(_)) => return path,
                Some(Seen::Folder) => return path,
                None => return path,
            }
        }
        path
    }

    // The path behind the links, if they are to be followed.
    fn seen<'a>(&'a self, path: &'a str, follow: bool) -> &'a str
        ensures { result.now ≡ seen follow (contents_of self.now) path.now }
    {
        if follow { self.follow(path) } else { path }
    }

    // A copy of the path behind the links.
    fn followed(&self, path: &str) -> Result<String, FilesError>
        ensures path { IfOk result
            (λ text. string_bytes text ≡ followed (contents_of self.now) path.now) }
        ensures memory { IfErr result (λ e. e ≡ Memory) }
    {
        copied(self.alloc, self.follow(path))
    }

    // What stands at the path. The root and the current folder are always there.
    fn node(&self, path: &str) -> Option<Seen<'_>>
        ensures { option_map seen_node result ≡ node_at (contents_of self.now) path.now }
    {
        if is_base(path) {
            return Some(Seen::Folder);
        }
        match self.nodes.get(path) {
            None => None,
            Some(Stored::File(bytes)) => Some(Seen::File(bytes)),
            Some(Stored::Folder) => Some(Seen::Folder),
            Some(Stored::Link(target)) => Some(Seen::Link(target)),
        }
    }

    // Whether something stands at the path.
    pub(crate) fn has(&self, path: &str) -> bool
        ensures { result ≡ is_some (node_at (contents_of self.now) path.now) }
    {
        self.node(path).is_some()
    }

    // Whether things may stand here.
    fn is_folder(&self, path: &str) -> bool
        ensures { result ≡ there.is_folder (node_at (contents_of self.now) path.now) }
    {
        matches!(self.node(path), Some(Seen::Folder))
    }

    // Whether the path's folder is there.
    fn has_folder(&self, path: &str) -> bool
        ensures { result ≡ there.has_folder (contents_of self.now) path.now }
    {
        match Path::new(path).parent() {
            None => false,
            Some(folder) => self.is_folder(folder.as_str()),
        }
    }

    // Puts a node at a path.
    fn put(&mut self, path: String, node: Stored) -> Result<(), FilesError>
        ensures ok { OnOk result (Same
            (change.put (contents_of self.old) (string_bytes path) (Some (node_of node)))
            (contents_of self.new)) }
        ensures err { OnErr result (Same (contents_of self.old) (contents_of self.new)) }
        ensures memory { IfErr result (λ e. e ≡ Memory) }
    {
        match self.nodes.insert(path, node) {
            Ok(_) => Ok(()),
            Err(_) => Err(FilesError::Memory),
        }
    }

    // Takes out what stands at the path.
    fn take_out(&mut self, path: &str)
        ensures { Same (change.put (contents_of self.old) path.now None) (contents_of self.new) }
    {
        self.nodes.remove(path);
    }

    // Puts a node at a path where nothing stands.
    fn put_new(&mut self, path: String, node: Stored) -> Result<(), FilesError>
        ensures { Gives (change.new_outcome (contents_of self.old) (string_bytes path)
            (node_of node)) (contents_of self.old) (done_or result) (contents_of self.new) }
    {
        if self.has_folder(path.as_str()) {
            self.put(path, node)
        } else {
            Err(FilesError::NotFound)
        }
    }

    pub(crate) fn kind(&self, path: &str, follow: bool) -> Result<FileKind, FilesError>
        ensures { found_or result
            ≡ kind_answer (node_at (contents_of self.now)
            (seen follow (contents_of self.now) path.now)) }
    {
        match self.node(self.seen(path, follow)) {
            None => Err(FilesError::NotFound),
            Some(Seen::File(_)) => Ok(FileKind::File),
            Some(Seen::Folder) => Ok(FileKind::Folder),
            Some(Seen::Link(_)) => Ok(FileKind::Link),
        }
    }

    pub(crate) fn create(&mut self, path: &str) -> Result<(), FilesError>
        ensures { Gives (create_outcome path.now (contents_of self.old)) (contents_of self.old)
            (done_or result) (contents_of self.new) }
    {
        self.write(path, Vec::new(self.alloc))
    }

    // Makes a file of these bytes, in place of the one that is there.
    fn write(&mut self, path: &str, bytes: Vec<u8>) -> Result<(), FilesError>
        ensures { Gives (write_outcome bytes.items path.now (contents_of self.old))
            (contents_of self.old) (done_or result) (contents_of self.new) }
    {
        match self.followed(path) {
            Ok(path) => self.write_at(path, bytes),
            Err(e) => Err(e),
        }
    }

    // The same, at a path itself.
    fn write_at(&mut self, path: String, bytes: Vec<u8>) -> Result<(), FilesError>
        ensures { Gives (change.write_over bytes.items (contents_of self.old) (string_bytes path)
            (node_at (contents_of self.old) (string_bytes path))) (contents_of self.old)
            (done_or result) (contents_of self.new) }
    {
        match self.node(path.as_str()) {
            None => self.put_new(path, Stored::File(bytes)),
            Some(Seen::File(_)) => self.put(path, Stored::File(bytes)),
            Some(Seen::Folder) => Err(FilesError::Failed),
            Some(Seen::Link(_)) => Err(FilesError::Failed),
        }
    }

    pub(crate) fn remove(&mut self, path: &str) -> Result<(), FilesError>
        ensures { Gives (remove_outcome path.now (contents_of self.old)) (contents_of self.old)
            (done_or result) (contents_of self.new) }
    {
        match self.node(path) {
            None => Err(FilesError::NotFound),
            Some(Seen::Folder) => Err(FilesError::Failed),
            Some(_) => {
                self.take_out(path);
                Ok(())
            }
        }
    }

    pub(crate) fn link(&mut self, original: &str, path: &str) -> Result<(), FilesError>
        ensures { Gives (link_outcome original.now path.now (contents_of self.old))
            (contents_of self.old) (done_or result) (contents_of self.new) }
    {
        if self.node(path).is_some() {
            return Err(FilesError::Failed);
        }
        let Ok(target) = String::from_str(self.alloc, original) else {
            return Err(FilesError::Memory);
        };
        let Ok(path) = String::from_str(self.alloc, path) else {
            return Err(FilesError::Memory);
        };
        self.put_new(path, Stored::Link(target))
    }

    // The bytes of the file from `from` on, as many as the buffer takes.
    pub(crate) fn read(&self, path: &str, from: u64, buf: &mut [u8]) -> Result<usize, FilesError>
        ensures answer { got_or buf.new result
            ≡ read_answer from (length buf.old)
            (node_at (contents_of self.now) (followed (contents_of self.now) path.now)) }
        ensures len { IfOk result (λ n. n ≤ length buf.new) }
    {
        match self.node(self.follow(path)) {
            None => Err(FilesError::NotFound),
            Some(Seen::File(bytes)) => Ok(fill(bytes, from, buf)),
            Some(Seen::Folder) => Err(FilesError::Failed),
            Some(Seen::Link(_)) => Err(FilesError::Failed),
        }
    }

    pub(crate) fn append(&mut self, path: &str, bytes: &[u8]) -> Result<(), FilesError>
        ensures { Gives (append_outcome path.now bytes.now (contents_of self.old))
            (contents_of self.old) (done_or result) (contents_of self.new) }
    {
        match self.followed(path) {
            Ok(path) => self.append_at(path, bytes),
            Err(e) => Err(e),
        }
    }

    // The same, at a path itself.
    fn append_at(&mut self, path: String, bytes: &[u8]) -> Result<(), FilesError>
        ensures { Gives (change.append_over bytes.now (contents_of self.old) (string_bytes path)
            (node_at (contents_of self.old) (string_bytes path))) (contents_of self.old)
            (done_or result) (contents_of self.new) }
    {
        match self.node(path.as_str()) {
            None => Err(FilesError::NotFound),
            Some(Seen::File(old)) => match joined(self.alloc, old, bytes) {
                Ok(all) => self.put(path, Stored::File(all)),
                Err(e) => Err(e),
            },
            Some(Seen::Folder) => Err(FilesError::Failed),
            Some(Seen::Link(_)) => Err(FilesError::Failed),
        }
    }

    pub(crate) fn copy(&mut self, from: &str, to: &str) -> Result<(), FilesError>
        ensures { Gives (copy_outcome from.now to.now (contents_of self.old)) (contents_of self.old)
            (done_or result) (contents_of self.new) }
    {
        match self.followed(from) {
            Ok(from) => self.copy_at(from.as_str(), to),
            Err(e) => Err(e),
        }
    }

    // The same, from a path itself.
    fn copy_at(&mut self, from: &str, to: &str) -> Result<(), FilesError>
        ensures { Gives (change.copy_over to.now (contents_of self.old)
            (node_at (contents_of self.old) from.now)) (contents_of self.old) (done_or result)
            (contents_of self.new) }
    {
        match self.node(from) {
            None => Err(FilesError::NotFound),
            Some(Seen::File(bytes)) => match joined(self.alloc, bytes, b"") {
                Ok(bytes) => self.write(to, bytes),
                Err(e) => Err(e),
            },
            Some(Seen::Folder) => Err(FilesError::Failed),
            Some(Seen::Link(_)) => Err(FilesError::Failed),
        }
    }

    pub(crate) fn rename(&mut self, from: &str, to: &str) -> Result<(), FilesError>
        ensures { Gives (rename_outcome from.now to.now (contents_of self.old))
            (contents_of self.old) (done_or result) (contents_of self.new) }
    {
        match self.node(from) {
            None => Err(FilesError::NotFound),
            Some(Seen::Folder) => Err(FilesError::Failed),
            Some(Seen::File(bytes)) => match joined(self.alloc, bytes, b"") {
                Ok(bytes) => self.move_to(from, to, Stored::File(bytes)),
                Err(e) => Err(e),
            },
            Some(Seen::Link(target)) => match String::from_str(self.alloc, target.as_str()) {
                Ok(target) => self.move_to(from, to, Stored::Link(target)),
                Err(_) => Err(FilesError::Memory),
            },
        }
    }

    // Makes an empty file at this path in the folder.
    pub(crate) fn create_new(&mut self, folder: &str, path: &str) -> Result<(), FilesError>
        ensures { Gives (temp_outcome folder.now path.now (contents_of self.old))
            (contents_of self.old) (named_if path.now result) (contents_of self.new) }
    {
        match self.node(folder) {
            None => Err(FilesError::NotFound),
            Some(Seen::Folder) => self.create_over(path),
            Some(Seen::File(_)) => Err(FilesError::Failed),
            Some(Seen::Link(_)) => Err(FilesError::Failed),
        }
    }

    fn create_over(&mut self, path: &str) -> Result<(), FilesError>
        ensures { Gives (temp_over path.now (contents_of self.old)
            (node_at (contents_of self.old) path.now)) (contents_of self.old)
            (named_if path.now result) (contents_of self.new) }
    {
        if self.node(path).is_some() {
            return Err(FilesError::Failed);
        }
        match copied(self.alloc, path) {
            Ok(path) => self.put(path, Stored::File(Vec::new(self.alloc))),
            Err(e) => Err(e),
        }
    }

    // Puts this copy of what stands at the one path at the other, and takes out the first.
    fn move_to(&mut self, from: &str, to: &str, node: Stored) -> Result<(), FilesError>
        ensures { Gives (change.move_over from.now to.now (node_of node) (contents_of self.old)
            (node_at (contents_of self.old) to.now)) (contents_of self.old) (done_or result)
            (contents_of self.new) }
    {
        if self.is_folder(to) {
            return Err(FilesError::Failed);
        }
        if !self.has_folder(to) {
            return Err(FilesError::NotFound);
        }
        if from == to {
            return Ok(());
        }
        let Ok(path) = String::from_str(self.alloc, to) else {
            return Err(FilesError::Memory);
        };
        match self.put(path, node) {
            Ok(()) => {
                self.take_out(from);
                Ok(())
            }
            Err(e) => Err(e),
        }
    }

    pub(crate) fn canonical(&self, path: &str) -> Result<String, FilesError>
        ensures answer { IfOk result
            (λ text. named (string_bytes text)
            ≡ canonical_answer (followed (contents_of self.now) path.now)
            (node_at (contents_of self.now) (followed (contents_of self.now) path.now))) }
        ensures err { IfErr result
            (λ e. e ≢ Memory
            → refused e ≡ canonical_answer (followed (contents_of self.now) path.now)
            (node_at (contents_of self.now) (followed (contents_of self.now) path.now))) }
    {
        let path = self.follow(path);
        match self.node(path) {
            None => Err(FilesError::NotFound),
            Some(Seen::Link(_)) => Err(FilesError::Failed),
            Some(Seen::File(_)) => copied(self.alloc, path),
            Some(Seen::Folder) => copied(self.alloc, path),
        }
    }

    pub(crate) fn make_folders(&mut self, path: &str) -> Result<(), FilesError>
        ensures { MakesFolders path.now (contents_of self.old) (done_or result)
            (contents_of self.new) }
    {
        match Path::new(path).parent() {
            None => Ok(()),
            Some(folder) => match self.make_folders(folder.as_str()) {
                Ok(()) => self.make_folder(path),
                Err(e) => Err(e),
            },
        }
    }

    // Makes a folder where nothing stands.
    fn make_folder(&mut self, path: &str) -> Result<(), FilesError>
        ensures { Gives (change.folder_over path.now (contents_of self.old)
            (node_at (contents_of self.old) path.now)) (contents_of self.old) (done_or result)
            (contents_of self.new) }
    {
        match self.node(path) {
            None => match copied(self.alloc, path) {
                Ok(path) => self.put(path, Stored::Folder),
                Err(e) => Err(e),
            },
            Some(Seen::Folder) => Ok(()),
            Some(Seen::File(_)) => Err(FilesError::Failed),
            Some(Seen::Link(_)) => Err(FilesError::Failed),
        }
    }

    pub(crate) fn list(&self, path: &str) -> Result<Vec<String>, FilesError>
        ensures { Lists path.now (contents_of self.now) (listed_or result) (contents_of self.now) }
    {
        match self.node(path) {
            None => Err(FilesError::NotFound),
            Some(Seen::Folder) => match self.names_in(path) {
                Ok(names) => Ok(names),
                Err(_) => Err(FilesError::Memory),
            },
            Some(Seen::File(_)) => Err(FilesError::Failed),
            Some(Seen::Link(_)) => Err(FilesError::Failed),
        }
    }

    // The names of what stands in the folder, each once: `d/x` and `d//x` are two paths.
    fn names_in(&self, folder: &str) -> Result<Vec<String>, AllocError>
        ensures { IfOk result (λ names. map string_bytes names.items
            ≡ entry_names folder.now [] self.now.nodes.entries) }
    {
        let mut names = Vec::new(self.alloc);
        for (path, _) in self.nodes.iter() {
            match name_in(folder, path.as_str()) {
                None => {}
                Some(name) => add_name(self.alloc, &mut names, name)?,
            }
        }
        Ok(names)
    }
}

// Whether the name is among these.
fn is_among(names: &[String], name: &str) -> bool
    ensures { result ≡ list_any (λ known. bytes_eq name.now (string_bytes known)) names.now }
{
    names.iter().any(|known| name == known.as_str())
}

// Adds the name, unless it is among these.
#[tactic(auto, using(crate::proofs::Listing::among))]
fn add_name(alloc: Global, names: &mut Vec<String>, name: &str) -> Result<(), AllocError>
    ensures { OnOk result (map string_bytes names.new.items
        ≡ and_name (map string_bytes names.old.items) (Some name.now)) }
{
    if is_among(names, name) {
        return Ok(());
    }
    names.push(String::from_str(alloc, name)?)?;
    Ok(())
}

// The name of this path in the folder, if it stands in it.
fn name_in<'a>(folder: &str, path: &'a str) -> Option<&'a str>
    ensures { option_copied result ≡ change.name_in folder.now path.now }
{
    let path = Path::new(path);
    match path.parent() {
        None => None,
        Some(parent) => {
            if parent.as_str() == folder {
                path.file_name()
            } else {
                None
            }
        }
    }
}

// A copy of the text.
pub(crate) fn copied(alloc: Global, text: &str) -> Result<String, FilesError>
    ensures text { IfOk result (λ copy. string_bytes copy ≡ text.now) }
    ensures memory { IfErr result (λ e. e ≡ Memory) }
{
    match String::from_str(alloc, text) {
        Ok(copy) => Ok(copy),
        Err(_) => Err(FilesError::Memory),
    }
}

// The bytes of both.
pub(crate) fn joined(alloc: Global, first: &[u8], second: &[u8]) -> Result<Vec<u8>, FilesError>
    ensures bytes { IfOk result (λ all. all.items ≡ first.now ++ second.now) }
    ensures memory { IfErr result (λ e. e ≡ Memory) }
{
    let Ok(mut all) = first.to_vec(alloc) else {
        return Err(FilesError::Memory);
    };
    match all.extend_from_slice(second) {
        Ok(()) => Ok(all),
        Err(_) => Err(FilesError::Memory),
    }
}

// Copies the bytes from `from` on into the buffer, as many as it takes, and says how many.
fn fill(bytes: &[u8], from: u64, buf: &mut [u8]) -> usize
    ensures bytes { take result buf.new ≡ take (length buf.old) (drop from bytes.now) }
    ensures len { result ≤ length buf.new }
{
    let Ok(start) = usize::try_from(from) else {
        return 0;
    };
    let Some(left) = bytes.get(start..) else {
        return 0;
    };
    let count = left.len().min(buf.len());
    buf[..count].copy_from_slice(&left[..count]);
    count
}
