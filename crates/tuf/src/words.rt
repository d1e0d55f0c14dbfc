//! The words of the program: its verbs, and what stands behind them.

use clap::{Arg, ArgAction, ArgMatches, Command};
use std::alloc::{AllocError, Global};

const ABOUT: &str =
    "Publishes, checks and fetches repositories of The Update Framework (TUF specification 1.0).";

const WHENS: &str =
    "WHEN is an instant, as 2030-01-31T12:00:00Z, or a time from now, as 'in 30 days'.";

// An option with a value.
fn option<'a>(alloc: Global, name: &'a str, value: &'a str, help: &'a str) -> Arg<'a> {
    Arg::new(alloc, name)
        .long(name)
        .value_name(value)
        .help(help)
        .action(ArgAction::Set)
}

// An option with a value that must be there.
fn needed<'a>(alloc: Global, name: &'a str, value: &'a str, help: &'a str) -> Arg<'a> {
    option(alloc, name, value, help).required(true)
}

// An option that may stand several times, each with a value.
fn several<'a>(alloc: Global, name: &'a str, value: &'a str, help: &'a str) -> Arg<'a> {
    option(alloc, name, value, help).action(ArgAction::Append)
}

// A flag.
fn flag<'a>(alloc: Global, name: &'a str, help: &'a str) -> Arg<'a> {
    Arg::new(alloc, name)
        .long(name)
        .help(help)
        .action(ArgAction::SetTrue)
}

// The flag that asks for JSON.
fn json<'a>(alloc: Global) -> Arg<'a> {
    flag(alloc, "json", "Print an object of JSON a line")
}

// A word that must be there.
fn word<'a>(alloc: Global, name: &'a str, help: &'a str) -> Arg<'a> {
    Arg::new(alloc, name)
        .value_name(name)
        .help(help)
        .required(true)
}

// Words of which one must be there.
fn words<'a>(alloc: Global, name: &'a str, help: &'a str) -> Arg<'a> {
    word(alloc, name, help)
        .num_args(1..)
        .action(ArgAction::Append)
}

// A verb.
fn verb<'a>(alloc: Global, name: &'a str, about: &'a str) -> Command<'a> {
    Command::new(alloc, name).about(about).after_help(WHENS)
}

// A verb that has verbs of its own.
fn group<'a>(alloc: Global, name: &'a str, about: &'a str) -> Command<'a> {
    Command::new(alloc, name)
        .about(about)
        .subcommand_required(true)
        .arg_required_else_help(true)
        .disable_help_subcommand(true)
}

fn key_new<'a>(alloc: Global) -> Result<Command<'a>, AllocError> {
    Command::new(alloc, "new")
        .about("Makes a secret in a new file (PKCS #8, mode 0600), and prints its identifier")
        .arg(word(alloc, "FILE", "The file of the secret"))?
        .arg(option(alloc, "scheme", "SCHEME", "ed25519 or ecdsa-p256").default_value("ed25519"))
}

fn key_show<'a>(alloc: Global) -> Result<Command<'a>, AllocError> {
    Command::new(alloc, "show")
        .about("Prints identifier, scheme and public key of secret or public key files")
        .arg(words(
            alloc,
            "FILE",
            "Secrets, public keys in PEM, or files of 64 digits",
        ))?
        .arg(flag(
            alloc,
            "public",
            "Print the public key alone, for a file of its own",
        ))?
        .arg(json(alloc))
}

fn key<'a>(alloc: Global) -> Result<Command<'a>, AllocError> {
    group(alloc, "key", "Makes and shows keys")
        .subcommand(key_new(alloc)?)?
        .subcommand(key_show(alloc)?)
}

fn root_new<'a>(alloc: Global) -> Result<Command<'a>, AllocError> {
    verb(
        alloc,
        "new",
        "Makes a root without keys, of version 1, in a new file",
    )
    .arg(word(alloc, "ROOT", "The file of the root"))?
    .arg(needed(alloc, "expires", "WHEN", "When it expires"))
}

fn root_edit<'a>(alloc: Global) -> Result<Command<'a>, AllocError> {
    verb(alloc, "edit", "Changes a root, which loses its signatures")
        .arg(word(alloc, "ROOT", "The file of the root"))?
        .arg(several(
            alloc,
            "add-key",
            "ROLE=FILE",
            "Lists the key of a file for a role",
        ))?
        .arg(several(
            alloc,
            "remove-key",
            "ROLE=ID",
            "Takes a key from a role; the beginning of its identifier is enough",
        ))?
        .arg(several(
            alloc,
            "threshold",
            "ROLE=N",
            "How many keys of a role must sign",
        ))?
        .arg(option(alloc, "expires", "WHEN", "When it expires"))?
        .arg(flag(alloc, "bump", "Give it the next version"))
}

fn root_sign<'a>(alloc: Global) -> Result<Command<'a>, AllocError> {
    Command::new(alloc, "sign")
        .about("Adds signatures to those that a root has, and says who has still to sign")
        .arg(word(alloc, "ROOT", "The file of the root"))?
        .arg(several(
            alloc,
            "key",
            "FILE",
            "A secret that signs; - for standard input",
        )
        .required(true))?
        .arg(option(
            alloc,
            "old-root",
            "OLD",
            "The root before it, whose keys sign too",
        ))
}

fn root_show<'a>(alloc: Global) -> Result<Command<'a>, AllocError> {
    Command::new(alloc, "show")
        .about("Prints a root's version, expiry, roles and keys, and who signed it")
        .arg(word(alloc, "ROOT", "The file of the root"))?
        .arg(json(alloc))
}

fn root<'a>(alloc: Global) -> Result<Command<'a>, AllocError> {
    group(alloc, "root", "Makes, changes, signs and shows roots")
        .subcommand(root_new(alloc)?)?
        .subcommand(root_edit(alloc)?)?
        .subcommand(root_sign(alloc)?)?
        .subcommand(root_show(alloc)?)
}

// The roots of a repository, and who signs.
fn signed<'a>(alloc: Global, verb: Command<'a>) -> Result<Command<'a>, AllocError> {
    verb.arg(several(
        alloc,
        "root",
        "ROOT",
        "A signed root; with new keys the roots before it come first",
    )
    .required(true))?
    .arg(several(
        alloc,
        "key",
        "FILE",
        "A secret that signs; - for standard input",
    )
    .required(true))
}

// What is published.
fn published<'a>(alloc: Global, verb: Command<'a>) -> Result<Command<'a>, AllocError> {
    signed(alloc, verb)?
        .arg(needed(alloc, "targets", "DIR", "The folder of the files"))?
        .arg(needed(alloc, "repo", "DIR", "The folder of the repository"))?
        .arg(several(
            alloc,
            "role",
            "NAME=PATTERN",
            "A delegated role, which lists the files that the pattern matches",
        ))?
        .arg(several(
            alloc,
            "role-key",
            "NAME=FILE",
            "A secret of a new role; else the keys of the targets sign for it",
        ))?
        .arg(several(
            alloc,
            "take",
            "ROLE=FILE",
            "Takes in a document that a role's holders signed by `tuf role sign`",
        ))?
        .arg(several(
            alloc,
            "expires",
            "ROLE=WHEN",
            "When a document expires; else the timestamp in 7 days, the others in 30",
        ))
}

fn publish<'a>(alloc: Global) -> Result<Command<'a>, AllocError> {
    let verb = verb(
        alloc,
        "publish",
        "Makes a repository of the files of a folder, or its next version",
    );
    published(alloc, verb)
}

fn delegate<'a>(alloc: Global) -> Result<Command<'a>, AllocError> {
    let verb = verb(
        alloc,
        "delegate",
        "Delegates to a role whose keys others hold, or replaces its keys, and publishes",
    )
    .arg(word(alloc, "ROLE", "The name of the role"))?
    .arg(needed(
        alloc,
        "file",
        "FILE",
        "Its document, which its holders signed by `tuf role sign`",
    ))?
    .arg(several(alloc, "path", "PATTERN", "Which names it may list").required(true))?
    .arg(several(alloc, "holder-key", "FILE", "A public key of a holder").required(true))?
    .arg(option(alloc, "threshold", "N", "How many holders must sign").default_value("1"))?
    .arg(flag(
        alloc,
        "terminating",
        "End the search for the names that it may list with it",
    ))?;
    published(alloc, verb)
}

fn role_sign<'a>(alloc: Global) -> Result<Command<'a>, AllocError> {
    verb(
        alloc,
        "sign",
        "Makes the next document of a delegated role, or adds signatures to it",
    )
    .arg(word(alloc, "ROLE", "The name of the role"))?
    .arg(needed(alloc, "file", "FILE", "The file of its document"))?
    .arg(several(
        alloc,
        "key",
        "FILE",
        "A secret that signs; - for standard input",
    )
    .required(true))?
    .arg(option(
        alloc,
        "targets",
        "DIR",
        "The folder of its files, which the next document lists; else signatures are added",
    ))?
    .arg(option(alloc, "expires", "WHEN", "When it expires; else in 30 days"))
}

fn role<'a>(alloc: Global) -> Result<Command<'a>, AllocError> {
    group(
        alloc,
        "role",
        "Signs documents of delegated roles, without the repository",
    )
    .subcommand(role_sign(alloc)?)
}

fn refresh<'a>(alloc: Global) -> Result<Command<'a>, AllocError> {
    let verb = verb(
        alloc,
        "refresh",
        "Signs a new timestamp, and leaves all else as it stands",
    );
    signed(alloc, verb)?
        .arg(needed(alloc, "repo", "DIR", "The folder of the repository"))?
        .arg(option(
            alloc,
            "expires",
            "WHEN",
            "When the timestamp expires; else in 7 days",
        ))
}

fn check<'a>(alloc: Global) -> Result<Command<'a>, AllocError> {
    verb(
        alloc,
        "check",
        "Loads a repository as a client does, and reads every target",
    )
    .arg(needed(alloc, "repo", "DIR", "The folder of the repository"))?
    .arg(needed(alloc, "root", "ROOT", "The root that is trusted"))?
    .arg(option(alloc, "at", "WHEN", "Another time than now"))?
    .arg(json(alloc))
}

fn list<'a>(alloc: Global) -> Result<Command<'a>, AllocError> {
    verb(
        alloc,
        "list",
        "Prints name, length and digest of every target",
    )
    .arg(needed(alloc, "repo", "DIR", "The folder of the repository"))?
    .arg(needed(alloc, "root", "ROOT", "The root that is trusted"))?
    .arg(option(alloc, "at", "WHEN", "Another time than now"))?
    .arg(json(alloc))
}

// From where a repository is loaded, and what is trusted.
fn loaded<'a>(alloc: Global, verb: Command<'a>) -> Result<Command<'a>, AllocError> {
    verb.arg(needed(alloc, "root", "ROOT", "The root that is trusted"))?
        .arg(needed(
            alloc,
            "metadata",
            "URL",
            "Where the metadata lies: file:///PATH or http://HOST/PATH",
        ))?
        .arg(needed(alloc, "targets", "URL", "Where the targets lie"))?
        .arg(needed(
            alloc,
            "store",
            "DIR",
            "The folder that keeps what was accepted; one for each repository",
        ))
}

fn get<'a>(alloc: Global) -> Result<Command<'a>, AllocError> {
    let verb = Command::new(alloc, "get").about(
        "Loads a repository, and saves targets; a file that is current stays",
    );
    loaded(alloc, verb)?
        .arg(needed(alloc, "out", "DIR", "The folder of the files"))?
        .arg(words(alloc, "NAME", "The names of the targets"))?
        .arg(json(alloc))
}

fn mirror<'a>(alloc: Global) -> Result<Command<'a>, AllocError> {
    let verb = Command::new(alloc, "mirror").about(
        "Loads a repository, and copies all of it into a folder for other clients",
    );
    loaded(alloc, verb)?.arg(needed(alloc, "repo", "DIR", "The folder of the copy"))
}

fn demo<'a>(alloc: Global) -> Result<Command<'a>, AllocError> {
    Command::new(alloc, "demo")
        .about("Makes keys, a root and a repository in a new folder, loads it and updates it")
        .arg(word(alloc, "FOLDER", "The folder, which must not be there"))
}

/// The program's words.
pub(crate) fn command<'a>(alloc: Global) -> Result<Command<'a>, AllocError> {
    group(alloc, "tuf", ABOUT)
        .bin_name("tuf")?
        .subcommand(key(alloc)?)?
        .subcommand(root(alloc)?)?
        .subcommand(publish(alloc)?)?
        .subcommand(delegate(alloc)?)?
        .subcommand(role(alloc)?)?
        .subcommand(refresh(alloc)?)?
        .subcommand(check(alloc)?)?
        .subcommand(list(alloc)?)?
        .subcommand(get(alloc)?)?
        .subcommand(mirror(alloc)?)?
        .subcommand(demo(alloc)?)
}

/// The word that stands behind an option, or in a place, which must be there.
pub(crate) fn text<'a>(matches: &ArgMatches<'a>, id: &str) -> &'a str {
    match matches.get_str(id) {
        Some(text) => text,
        None => "",
    }
}

/// The words that stand behind an option, or in a place.
pub(crate) fn texts<'a>(
    alloc: Global,
    matches: &ArgMatches<'a>,
    id: &str,
) -> Result<Vec<&'a str>, AllocError> {
    let mut texts = Vec::new(alloc);
    if let Some(given) = matches.get_strs(id) {
        for text in given {
            texts.push(*text)?;
        }
    }
    Ok(texts)
}
