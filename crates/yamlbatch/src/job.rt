/// How a tree is written.
#[derive(Clone, Copy)]
pub struct Settings {
    /// A collection in a sequence begins on the line of its dash.
    pub compact: bool,
    /// Strings of several lines are literal blocks.
    pub multiline: bool,
}

/// What becomes of a malformation.
#[derive(Clone, Copy)]
pub enum Trap {
    /// It is left out.
    Ignore,
    /// Decoding stops.
    Strict,
    /// U+FFFD stands in its place.
    Replace,
    /// Calls `notes`.
    Call,
    /// Calls `stops`.
    Stop,
}

/// What is printed of a file.
#[derive(Clone, Copy)]
pub enum Job {
    /// The tokens.
    Tokens,
    /// The events.
    Events,
    /// The trees.
    Trees,
    /// The dumps, with these settings.
    Dump(Settings),
    /// What its bytes load as, with this trap.
    Decode(Trap),
}

/// What the words ask for; `tokens` if they ask for nothing known.
pub fn job_of(words: &[String]) -> Job {
    let [word, options @ ..] = words else {
        return Job::Tokens;
    };
    match word.as_str() {
        "events" => Job::Events,
        "debug" => Job::Trees,
        "dump" => Job::Dump(Settings {
            compact: !has(options, "--spread"),
            multiline: has(options, "--multiline"),
        }),
        "decode" => Job::Decode(trap_of(options)),
        _ => Job::Tokens,
    }
}

fn has(options: &[String], name: &str) -> bool {
    for option in options {
        if option.as_str() == name {
            return true;
        }
    }
    false
}

fn trap_of(options: &[String]) -> Trap {
    let [word] = options else {
        return Trap::Strict;
    };
    match word.as_str() {
        "ignore" => Trap::Ignore,
        "replace" => Trap::Replace,
        "call" => Trap::Call,
        "stop" => Trap::Stop,
        _ => Trap::Strict,
    }
}
