//! The files of metadata that are cached: which are fetched again, and how they are written.

ghost use Rattle.std.specs.Prelude.{◌≡◌, None, Some, IfOk, IfErr, option_map, string_bytes};
ghost use Rattle.std.specs.Int.NonZero.{non_zero_u64_get};
ghost use Rattle.std.specs.Path.{path_join};
ghost use Rattle.tough_roles.specs.Names.{file_name};
ghost use Rattle.tough_schema.specs.Targets.{delegated_file};
ghost use Rattle.tough_update.specs.View.{loaded_doc, received_doc};
ghost use Rattle.tough_trust.specs.View.{request_doc};
ghost use Rattle.tough_client.specs.declared.plan.Served.TheVariants as served;
ghost use Rattle.tough_client.specs.Copying.{is_consistent, file_again, IsUnlisted, IsMade, IsWritten, WritesFetched, WritesDocument, WritesRole};
ghost use Rattle.tough_client.specs.Copying as spec;

use crate::failure::fault;
use crate::plan::Served;
use std::alloc::{AllocError, Global};
use std::num::NonZeroU64;
use std::path::Path;
use tough_error::Error;
use tough_files::{Files, FilesError};
use tough_load::{Limits, Loaded, Received, Request};
use tough_names::encode_filename;
use tough_net::{Digests, TransportError};
use tough_roles::RoleType;
use tough_roles::names::{file_name, versioned};
use tough_save::write_file;
use tough_trust::{root_request, snapshot_request, timestamp_request};

/// Makes a folder for what is cached.
pub(crate) fn make_folder<F: Files>(alloc: Global, files: &mut F, path: &str) -> Result<(), Error>
    ensures { IsMade F.tells path.now (F.calls files.old) (F.calls files.new) result }
{
    match files.make_folders(path) {
        Ok(()) => Ok(()),
        Err(FilesError::Memory) => Err(Error::Memory),
        Err(source) => match String::from_str(alloc, path) {
            Ok(path) => Err(Error::CacheDirectoryCreate { path, source }),
            Err(_) => Err(Error::Memory),
        },
    }
}

// Writes a file of metadata.
fn write<F: Files>(files: &mut F, path: String, bytes: &[u8]) -> Result<(), Error>
    ensures { IsWritten F.tells (string_bytes path) bytes.now (F.calls files.old)
        (F.calls files.new) result }
{
    match write_file(files, path.as_str(), bytes) {
        Ok(()) => Ok(()),
        Err(FilesError::Memory) => Err(Error::Memory),
        Err(source) => Err(Error::CacheFileWrite { path, source }),
    }
}

/// Writes what was fetched, or says why it wasn't.
pub(crate) fn write_fetched<F: Files>(
    files: &mut F,
    path: String,
    fetched: Result<Vec<u8>, TransportError>,
) -> Result<(), Error>
    ensures { WritesFetched F.tells (string_bytes path) fetched (F.calls files.old)
        (F.calls files.new) result }
{
    match fetched {
        Ok(bytes) => write(files, path, bytes.as_slice()),
        Err(error) => Err(fault(error)),
    }
}

/// The path of a file in a folder.
pub(crate) fn path_in(alloc: Global, folder: &str, name: &str) -> Result<String, AllocError>
    ensures { IfOk result (λ path. string_bytes path ≡ path_join folder.now name.now) }
{
    Ok(Path::new(folder).join(alloc, name)?.into_string())
}

// The name of a file, which its version stands before under consistent snapshots.
fn served_name(
    alloc: Global,
    loaded: &Loaded,
    version: NonZeroU64,
    name: &str,
) -> Result<String, AllocError>
    ensures { IfOk result (λ file. string_bytes file
        ≡ file_name (is_consistent (loaded_doc loaded.now)) (non_zero_u64_get version) name.now) }
{
    file_name(
        alloc,
        loaded.root().signed.consistent_snapshot,
        version,
        name,
    )
}

// The same request, without digests.
fn unchecked(request: Request) -> Request
    ensures { request_doc result ≡ spec.unchecked (request_doc request) }
{
    Request {
        name: request.name,
        max_size: request.max_size,
        specifier: request.specifier,
        digests: Digests::none(),
    }
}

// The snapshot, as the load asked for it, but for its digests.
fn snapshot_again(alloc: Global, loaded: &Loaded, limits: &Limits) -> Result<Request, Error>
    ensures asked { IfOk result
        (λ q. file_again (loaded_doc loaded.now) limits.now served.Snapshot
        ≡ Some (request_doc q)) }
    ensures none { IfErr result (IsUnlisted (loaded_doc loaded.now) limits.now served.Snapshot) }
{
    let consistent = loaded.root().signed.consistent_snapshot;
    match loaded.timestamp().signed.metafile("snapshot.json") {
        Some(meta) => {
            let request = snapshot_request(alloc, limits, consistent, meta)?;
            Ok(unchecked(request))
        }
        None => Err(Error::MetaMissing {
            file: "snapshot.json",
            role: RoleType::Timestamp,
        }),
    }
}

// The targets, of at most the length that is taken where none is stated.
fn targets_again(alloc: Global, loaded: &Loaded, limits: &Limits) -> Result<Request, AllocError>
    ensures { IfOk result (λ q. request_doc q
        ≡ spec.targets_again (loaded_doc loaded.now) limits.now) }
{
    let version = loaded.targets().signed.version;
    Ok(Request {
        name: served_name(alloc, loaded, version, "targets.json")?,
        max_size: limits.max_targets_size,
        specifier: "max_targets_size argument",
        digests: Digests::none(),
    })
}

/// The request by which a file of metadata is fetched again.
pub(crate) fn file_again(
    alloc: Global,
    loaded: &Loaded,
    limits: &Limits,
    served: Served,
) -> Result<Request, Error>
    ensures asked { IfOk result
        (λ q. spec.file_again (loaded_doc loaded.now) limits.now served ≡ Some (request_doc q)) }
    ensures none { IfErr result (IsUnlisted (loaded_doc loaded.now) limits.now served) }
{
    match served {
        Served::Snapshot => snapshot_again(alloc, loaded, limits),
        Served::Targets => Ok(targets_again(alloc, loaded, limits)?),
        Served::Timestamp => Ok(timestamp_request(alloc, limits)?),
        Served::Root(version) => Ok(root_request(alloc, limits, version)?),
    }
}

// The name of the file of a delegated role, without its version.
fn plain_file(alloc: Global, role: &str) -> Result<String, AllocError>
    ensures { IfOk result (λ file. string_bytes file ≡ delegated_file role.now) }
{
    let mut file = encode_filename(alloc, role)?;
    file.push_str(".json")?;
    Ok(file)
}

// The name of the file of a delegated role; none under consistent snapshots where the snapshot doesn't list it.
fn role_file(alloc: Global, loaded: &Loaded, role: &str) -> Result<Option<String>, AllocError>
    ensures { IfOk result (λ file. option_map string_bytes file
        ≡ spec.role_file (loaded_doc loaded.now) role.now) }
{
    let file = plain_file(alloc, role)?;
    if !loaded.root().signed.consistent_snapshot {
        return Ok(Some(file));
    }
    let listed = format!(in alloc; "{role}.json")?;
    match loaded.snapshot().signed.metafile(listed.as_str()) {
        Some(meta) => {
            let name = versioned(alloc, meta.version.get(), file.as_str())?;
            Ok(Some(name))
        }
        None => Ok(None),
    }
}

// Writes a document, as it was received.
fn write_document<F: Files>(
    alloc: Global,
    files: &mut F,
    loaded: &Loaded,
    document: &Received,
    folder: &str,
) -> Result<(), Error>
    ensures { WritesDocument F.tells (loaded_doc loaded.now) folder.now (received_doc document.now)
        (F.calls files.old) (F.calls files.new) result }
{
    match role_file(alloc, loaded, document.role.as_str())? {
        Some(name) => {
            let path = path_in(alloc, folder, name.as_str())?;
            write(files, path, document.bytes.as_slice())
        }
        None => Ok(()),
    }
}

/// Writes the document at this place of those that were received.
pub(crate) fn write_role<F: Files>(
    alloc: Global,
    files: &mut F,
    loaded: &Loaded,
    place: usize,
    folder: &str,
) -> Result<(), Error>
    ensures { WritesRole F.tells (loaded_doc loaded.now) folder.now place (F.calls files.old)
        (F.calls files.new) result }
{
    match loaded.received().get(place) {
        Some(document) => write_document(alloc, files, loaded, document, folder),
        None => Ok(()),
    }
}
