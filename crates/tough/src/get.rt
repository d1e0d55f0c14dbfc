//! `tough get`: a target of a repository is saved in a folder.

ghost use Rattle.std.specs.Prelude.{◌≡◌, IfOk, string_bytes};
ghost use Rattle.tough_update.specs.Stages.{LoadedDoc};
ghost use Rattle.tough_client.specs.Repositories.{documents_of};
ghost use Rattle.tough.specs.Program.{IsVouchedFor, report_text};

use crate::opening::{Fault, Wanted, not_run, open_by, refused, vault_in, with_cause, with_fault};
use crate::progress::Watched;
use crate::report::report;
use std::alloc::AllocGlobal;
use std::fs::File;
use std::io::Write;
use std::random::RandomSource;
use std::sync::Wait;
use std::{rt, time};
use tokio::runtime::LocalRuntime;
use tough_client::{Clock, Keeper, Prefix, Repository};
use tough_files::{Files, OsFiles};
use tough_names::TargetName;
use tough_net::Transport;

// Saves the target.
fn save<R, T, K, C, F>(
    rt: &R,
    runtime: &mut LocalRuntime,
    repository: &mut Repository<T, K, C>,
    files: &mut F,
    name: &TargetName,
    outdir: &str,
) -> Result<(), Fault>
where
    R: Wait + time::Clock + RandomSource + AllocGlobal,
    T: Transport,
    K: Keeper,
    C: Clock + Drop,
    F: Files,
{
    let saving = repository.save_target(files, name, outdir, Prefix::None);
    match runtime.block_on(rt, saving) {
        Ok(Ok(())) => Ok(()),
        Ok(Err(error)) => Err(refused(rt.alloc(), error)),
        Err(error) => Err(not_run(rt.alloc(), error)),
    }
}

// Saves the target, and tells meanwhile how much of it is there.
fn save_watched<R, T, K, C, E>(
    rt: &R,
    runtime: &mut LocalRuntime,
    repository: &mut Repository<T, K, C>,
    name: &TargetName,
    outdir: &str,
    err: Option<E>,
) -> Result<(), Fault>
where
    R: rt::Files<File = File> + Wait + rt::Clock + RandomSource + AllocGlobal + Clone + Drop,
    T: Transport,
    K: Keeper,
    C: Clock + Drop,
    E: Write + Drop,
{
    let targets = &repository.targets().signed;
    let length = match targets.find_target(rt.alloc(), name, false) {
        Ok(target) => target.length,
        Err(_) => 0,
    };
    let mut files = Watched::new(OsFiles::new(rt.clone()?), rt.clone()?, err, length);
    let done = save(rt, runtime, repository, &mut files, name, outdir);
    files.finish();
    match done {
        Ok(()) => Ok(()),
        Err(fault) => Err(with_fault(rt.alloc(), fault, files.files().last_fault())),
    }
}

// Saves a target of a repository, and tells the versions of what was loaded, and what was saved where.
fn save_and_report<R, T, K, C, E>(
    rt: &R,
    runtime: &mut LocalRuntime,
    repository: &mut Repository<T, K, C>,
    name: &TargetName,
    outdir: &str,
    err: Option<E>,
) -> Result<String, Fault>
where
    R: rt::Files<File = File> + Wait + rt::Clock + RandomSource + AllocGlobal + Clone + Drop,
    T: Transport,
    K: Keeper,
    C: Clock + Drop,
    E: Write + Drop,
    ensures { IfOk result (λ text. string_bytes text
        ≡ report_text (documents_of repository.old) name.now.resolved outdir.now) }
{
    match report(rt.alloc(), repository.documents(), name, outdir) {
        Ok(text) => match save_watched(rt, runtime, repository, name, outdir, err) {
            Ok(()) => Ok(text),
            Err(fault) => Err(fault),
        },
        Err(error) => Err(Fault::from(error)),
    }
}

/// Loads the repository over a transport, saves the target, and gives the text with the versions and with what was saved where.
pub(crate) fn get_by<R, T, E>(
    rt: &R,
    runtime: &mut LocalRuntime,
    transport: T,
    wanted: Wanted<'_>,
    name: &TargetName,
    outdir: &str,
    err: Option<E>,
) -> Result<String, Fault>
where
    R: rt::Files<File = File> + Wait + rt::Clock + RandomSource + AllocGlobal + Clone + Drop,
    T: Transport,
    E: Write + Drop,
    ensures { IfOk result (λ text. (l : LoadedDoc) × IsVouchedFor l
        × (string_bytes text ≡ report_text l name.now.resolved outdir.now)) }
{
    let store = wanted.store;
    let mut vault = vault_in(rt, store)?;
    match open_by(rt, runtime, transport, &mut vault, wanted) {
        Ok(repository) => {
            let mut repository = repository;
            let told = save_and_report(rt, runtime, &mut repository, name, outdir, err);
            drop(repository);
            drop(vault);
            match told {
                Ok(text) => Ok(text),
                Err(fault) => Err(fault),
            }
        }
        Err(fault) => Err(with_cause(rt.alloc(), fault, vault, store)),
    }
}
