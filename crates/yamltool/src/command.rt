//! What the arguments ask for.
use yaml_programs::ProgramOption;

const SPREAD: ProgramOption = ProgramOption {
    name: "--spread",
    takes: "",
    help: "of dump: a collection in another begins on a line of its own",
};

const MULTILINE: ProgramOption = ProgramOption {
    name: "--multiline",
    takes: "",
    help: "of dump: strings of several lines are literal blocks",
};

const LIFTED: ProgramOption = ProgramOption {
    name: "--no-limits",
    takes: "",
    help: "before dump or overlay: no limits on levels and size",
};

/// The options of a dump, and that before a command.
pub const OPTIONS: &[ProgramOption] = &[SPREAD, MULTILINE, LIFTED];

/// How a tree is laid out.
#[derive(Clone, Copy)]
pub struct Settings {
    /// A nested array or hash begins on the line below its indicator.
    pub spread: bool,
    /// Strings of several lines are literal blocks.
    pub multiline: bool,
}

/// What is asked for.
#[derive(Clone, Copy)]
pub struct Request<'a> {
    /// Files are loaded within the limits for a stranger's text.
    pub is_limited: bool,
    /// What to print.
    pub command: Command<'a>,
}

/// What to print, and the paths of the files.
#[derive(Clone, Copy)]
pub enum Command<'a> {
    /// The events of this file.
    Events(&'a str),
    /// The documents of this file, written anew.
    Dump(Settings, &'a str),
    /// The document of the second file, laid over that of the first.
    Overlay(&'a str, &'a str),
    /// The help.
    Help,
    /// The name and the version.
    Version,
}

/// What the arguments ask for, if they ask for something. `--no-limits` stands before the command.
pub fn request_of(args: &[String]) -> Option<Request<'_>> {
    match args {
        [word, rest @ ..] if word.as_str() == LIFTED.name => Some(Request {
            is_limited: false,
            command: command_of(rest)?,
        }),
        _ => Some(Request {
            is_limited: true,
            command: command_of(args)?,
        }),
    }
}

// Only the first word asks for the help or the version: behind a command each word is an option of it or a file.
fn command_of(args: &[String]) -> Option<Command<'_>> {
    match args.first()?.as_str() {
        "-h" | "--help" => return Some(Command::Help),
        "--version" => return Some(Command::Version),
        _ => {}
    }
    let [word, options @ .., path] = args else {
        return None;
    };
    let path = path.as_str();
    match (word.as_str(), options) {
        ("events", []) => Some(Command::Events(path)),
        ("dump", _) => Some(Command::Dump(settings_of(options)?, path)),
        ("overlay", [left]) => Some(Command::Overlay(left.as_str(), path)),
        _ => None,
    }
}

impl Settings {
    /// The settings of a dump without options.
    pub const COMPACT: Settings = Settings {
        spread: false,
        multiline: false,
    };
}

fn settings_of(options: &[String]) -> Option<Settings> {
    let mut settings = Settings::COMPACT;
    for option in options {
        let option = option.as_str();
        if option == SPREAD.name {
            settings.spread = true;
        } else if option == MULTILINE.name {
            settings.multiline = true;
        } else {
            return None;
        }
    }
    Some(settings)
}
