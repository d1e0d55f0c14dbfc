//! The words of the updater: its own six, and those of the field's client protocol.

/// What is to be done.
#[derive(Drop)]
pub enum Command<'a> {
    /// Keeps the file as the trusted root of the folder.
    Init { folder: &'a str, root: &'a str },
    /// Loads a repository, and saves a target where one is named.
    Update(Asked<'a>),
}

/// Where the trusted root stands.
#[derive(Drop)]
pub enum Trusted<'a> {
    /// In this file.
    File(&'a str),
    /// In the folder in which `init` kept it.
    KeptIn(&'a str),
}

/// A load that is asked for, and the target that is saved below `outdir`.
#[derive(Drop)]
pub struct Asked<'a> {
    pub root: Trusted<'a>,
    pub metadata: &'a str,
    pub targets: &'a str,
    pub store: &'a str,
    pub name: Option<&'a str>,
    pub outdir: &'a str,
}

// The options of the protocol, which stand before its command.
#[derive(Drop)]
struct Options<'a> {
    metadata_dir: Option<&'a str>,
    metadata_url: Option<&'a str>,
    target_name: Option<&'a str>,
    target_dir: Option<&'a str>,
    target_base_url: Option<&'a str>,
}

impl<'a> Options<'a> {
    fn none() -> Options<'a> {
        Options {
            metadata_dir: None,
            metadata_url: None,
            target_name: None,
            target_dir: None,
            target_base_url: None,
        }
    }

    // Takes an option with its value, and tells whether it is one.
    fn take(&mut self, option: &str, value: &'a str) -> bool {
        match option {
            "--metadata-dir" => self.metadata_dir = Some(value),
            "--metadata-url" => self.metadata_url = Some(value),
            "--target-name" => self.target_name = Some(value),
            "--target-dir" => self.target_dir = Some(value),
            "--target-base-url" => self.target_base_url = Some(value),
            _ => return false,
        }
        true
    }
}

/// What the words ask for; none where they are no command.
pub fn read(words: &[String]) -> Option<Command<'_>> {
    match words {
        [root, metadata, targets, store, name, outdir] => Some(Command::Update(Asked {
            root: Trusted::File(root.as_str()),
            metadata: metadata.as_str(),
            targets: targets.as_str(),
            store: store.as_str(),
            name: Some(name.as_str()),
            outdir: outdir.as_str(),
        })),
        _ => of_protocol(words),
    }
}

// A command of the protocol: pairs of an option and its value, and then the command.
fn of_protocol(words: &[String]) -> Option<Command<'_>> {
    let mut options = Options::none();
    let mut rest = words;
    for _ in 0..words.len() {
        match rest {
            [option, value, more @ ..] if options.take(option.as_str(), value.as_str()) => {
                rest = more;
            }
            _ => break,
        }
    }
    let folder = options.metadata_dir?;
    match rest {
        [command, root] if command.as_str() == "init" => Some(Command::Init {
            folder,
            root: root.as_str(),
        }),
        [command] if command.as_str() == "refresh" => Some(Command::Update(Asked {
            root: Trusted::KeptIn(folder),
            metadata: options.metadata_url?,
            targets: options.metadata_url?,
            store: folder,
            name: None,
            outdir: folder,
        })),
        [command] if command.as_str() == "download" => Some(Command::Update(Asked {
            root: Trusted::KeptIn(folder),
            metadata: options.metadata_url?,
            targets: options.target_base_url?,
            store: folder,
            name: Some(options.target_name?),
            outdir: options.target_dir?,
        })),
        _ => None,
    }
}
