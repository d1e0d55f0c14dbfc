//! The verbs, as the words ask for them.

use crate::check::{Look, Looking};
use crate::fault::{Fault, misspelt};
use crate::get::{Fetching, Wish, get};
use crate::host::Host;
use crate::publish::{Delegating, Publishing, publish};
use crate::refresh::{Refreshing, refresh};
use crate::report::Form;
use crate::root_edit::{Editing, edit};
use crate::root_sign::{Signing, sign};
use crate::words::{text, texts};
use crate::{check, demo, key, role, root, when};
use clap::ArgMatches;
use std::num::NonZeroU64;
use std::rt::Stderr;
use tough::jiff::Timestamp;

const UNKNOWN: &str = "a verb; see --help";

// A verb that the parser doesn't let through.
fn unknown<R: Host>(rt: &R) -> Result<String, Fault> {
    Err(misspelt(rt.alloc(), "", UNKNOWN))
}

// How it is told.
fn form(given: &ArgMatches<'_>) -> Form {
    if given.get_flag("json") {
        Form::Json
    } else {
        Form::Words
    }
}

// The instant that the words behind an option name, if it is given.
fn instant<R: Host>(
    rt: &R,
    given: &ArgMatches<'_>,
    option: &str,
) -> Result<Option<Timestamp>, Fault> {
    match given.get_str(option) {
        Some(words) => Ok(Some(when::instant(rt, words)?)),
        None => Ok(None),
    }
}

fn run_key<R: Host>(rt: &R, matches: &ArgMatches<'_>) -> Result<String, Fault> {
    match matches.subcommand() {
        Some(("new", given)) => key::new(rt, text(given, "FILE"), text(given, "scheme")),
        Some(("show", given)) => {
            let paths = texts(rt.alloc(), given, "FILE")?;
            if given.get_flag("public") {
                key::publics(rt, paths.as_slice())
            } else {
                key::show(rt, paths.as_slice(), form(given))
            }
        }
        _ => unknown(rt),
    }
}

fn run_edit<R: Host>(rt: &R, given: &ArgMatches<'_>) -> Result<String, Fault> {
    let expires = instant(rt, given, "expires")?;
    let add = texts(rt.alloc(), given, "add-key")?;
    let remove = texts(rt.alloc(), given, "remove-key")?;
    let thresholds = texts(rt.alloc(), given, "threshold")?;
    let words = Editing {
        root: text(given, "ROOT"),
        add: add.as_slice(),
        remove: remove.as_slice(),
        thresholds: thresholds.as_slice(),
        expires,
        bump: given.get_flag("bump"),
    };
    edit(rt, &words)
}

fn run_sign<R: Host>(rt: &R, given: &ArgMatches<'_>) -> Result<String, Fault> {
    let keys = texts(rt.alloc(), given, "key")?;
    let words = Signing {
        root: text(given, "ROOT"),
        keys: keys.as_slice(),
    };
    sign(rt, &words, given.get_str("old-root"))
}

fn run_root<R: Host>(rt: &R, matches: &ArgMatches<'_>) -> Result<String, Fault> {
    match matches.subcommand() {
        Some(("new", given)) => root::new(rt, text(given, "ROOT"), text(given, "expires")),
        Some(("edit", given)) => run_edit(rt, given),
        Some(("sign", given)) => run_sign(rt, given),
        Some(("show", given)) => root::show(rt, text(given, "ROOT"), form(given)),
        _ => unknown(rt),
    }
}

// Publishes by the words that publishing has, to which a role may come that is delegated to.
fn run_publishing<R: Host>(
    rt: &R,
    given: &ArgMatches<'_>,
    delegating: Option<&Delegating<'_>>,
) -> Result<String, Fault> {
    let alloc = rt.alloc();
    let roots = texts(alloc, given, "root")?;
    let keys = texts(alloc, given, "key")?;
    let roles = texts(alloc, given, "role")?;
    let role_keys = texts(alloc, given, "role-key")?;
    let expires = texts(alloc, given, "expires")?;
    let taken = texts(alloc, given, "take")?;
    let words = Publishing {
        roots: roots.as_slice(),
        keys: keys.as_slice(),
        targets: text(given, "targets"),
        repo: text(given, "repo"),
        roles: roles.as_slice(),
        role_keys: role_keys.as_slice(),
        expires: expires.as_slice(),
        taken: taken.as_slice(),
        delegating,
    };
    publish(rt, &words)
}

fn run_delegate<R: Host>(rt: &R, given: &ArgMatches<'_>) -> Result<String, Fault> {
    let alloc = rt.alloc();
    let paths = texts(alloc, given, "path")?;
    let keys = texts(alloc, given, "holder-key")?;
    let number = text(given, "threshold");
    let Some(threshold) = number.parse::<u64>().ok().and_then(NonZeroU64::new) else {
        return Err(misspelt(alloc, number, "a number from 1 on"));
    };
    let delegating = Delegating {
        name: text(given, "ROLE"),
        paths: paths.as_slice(),
        keys: keys.as_slice(),
        threshold,
        terminating: given.get_flag("terminating"),
        file: text(given, "file"),
    };
    run_publishing(rt, given, Some(&delegating))
}

fn run_role<R: Host>(rt: &R, matches: &ArgMatches<'_>) -> Result<String, Fault> {
    let Some(("sign", given)) = matches.subcommand() else {
        return unknown(rt);
    };
    let keys = texts(rt.alloc(), given, "key")?;
    let words = role::Signing {
        name: text(given, "ROLE"),
        file: text(given, "file"),
        keys: keys.as_slice(),
        expires: instant(rt, given, "expires")?,
    };
    match given.get_str("targets") {
        Some(folder) => role::make(rt, &words, folder),
        None => role::add(rt, &words),
    }
}

fn run_refresh<R: Host>(rt: &R, given: &ArgMatches<'_>) -> Result<String, Fault> {
    let expires = instant(rt, given, "expires")?;
    let roots = texts(rt.alloc(), given, "root")?;
    let keys = texts(rt.alloc(), given, "key")?;
    let words = Refreshing {
        roots: roots.as_slice(),
        keys: keys.as_slice(),
        repo: text(given, "repo"),
        expires,
    };
    refresh(rt, &words)
}

fn run_look<R: Host>(rt: &R, given: &ArgMatches<'_>, what: Look) -> Result<String, Fault> {
    check::run(
        rt,
        &Looking {
            repo: text(given, "repo"),
            root: text(given, "root"),
            at: instant(rt, given, "at")?,
            look: what,
            form: form(given),
        },
    )
}

fn run_get<R: Host>(rt: &R, given: &ArgMatches<'_>, err: Option<&Stderr>) -> Result<String, Fault> {
    let names = texts(rt.alloc(), given, "NAME")?;
    let words = Fetching {
        wish: Wish::Targets,
        root: text(given, "root"),
        metadata: text(given, "metadata"),
        targets: text(given, "targets"),
        store: text(given, "store"),
        out: text(given, "out"),
        names: names.as_slice(),
        form: form(given),
    };
    get(rt, &words, err)
}

fn run_mirror<R: Host>(
    rt: &R,
    given: &ArgMatches<'_>,
    err: Option<&Stderr>,
) -> Result<String, Fault> {
    let words = Fetching {
        wish: Wish::Mirror,
        root: text(given, "root"),
        metadata: text(given, "metadata"),
        targets: text(given, "targets"),
        store: text(given, "store"),
        out: text(given, "repo"),
        names: &[],
        form: Form::Words,
    };
    get(rt, &words, err)
}

/// Does what the words ask for: the lines that say what was done. Where `err` is given, it tells how far each target came that is fetched.
pub(crate) fn run<R: Host>(
    rt: &R,
    matches: &ArgMatches<'_>,
    err: Option<&Stderr>,
) -> Result<String, Fault> {
    match matches.subcommand() {
        Some(("key", given)) => run_key(rt, given),
        Some(("root", given)) => run_root(rt, given),
        Some(("publish", given)) => run_publishing(rt, given, None),
        Some(("delegate", given)) => run_delegate(rt, given),
        Some(("role", given)) => run_role(rt, given),
        Some(("refresh", given)) => run_refresh(rt, given),
        Some(("check", given)) => run_look(rt, given, Look::Check),
        Some(("list", given)) => run_look(rt, given, Look::List),
        Some(("get", given)) => run_get(rt, given, err),
        Some(("mirror", given)) => run_mirror(rt, given, err),
        Some(("demo", given)) => demo::run(rt, text(given, "FOLDER")),
        _ => unknown(rt),
    }
}
