ghost use Rattle.std.specs.Prelude.{◌≤◌, IfOk, IfSome};

use clap::error::ErrorKind;
use clap::{Arg, ArgAction, ArgMatches, Command, Error};
use ob_manager::Limits;
use std::alloc::{AllocError, Global};
use thiserror::Error;

/// What the command line decides.
#[derive(Debug, Drop, PartialEq, Eq)]
pub struct Options {
    /// How much the manager may hold: each limit as its option says, or at its default.
    pub limits: Limits,
    /// Whether the lines are read that `--more` adds.
    pub more: bool,
    /// How many lanes a script has beside lane 0, at most 64, or 0 where all its lines are answered one after another.
    pub lanes: u32,
    /// The path of the savestate that the script begins with, and none where it begins with a new manager.
    pub load: Option<String>,
    /// The path to which the state behind the script is saved, if it is.
    pub save: Option<String>,
    /// Whether all that the manager holds behind the script is told.
    pub dump: bool,
}

/// An option that takes a number: its name, its least and its greatest, and what the help says of it.
#[derive(Clone, Copy, Debug)]
pub struct NumberOption {
    /// The name, without what stands before it.
    pub name: &'static str,
    /// The least number that it takes.
    pub least: u32,
    /// The greatest number that it takes.
    pub most: u32,
    help: &'static str,
}

const SLOTS: NumberOption = NumberOption {
    name: "slots",
    least: 1,
    most: 65_536,
    help: "Slots for objects: 1 to 65536, default 64. A creation that finds none free answers 1450",
};

const PROCESSES: NumberOption = NumberOption {
    name: "processes",
    least: 1,
    most: 65_536,
    help: "Process numbers ever given: 1 to 65536, default 64. A start of one more answers 1450",
};

const THREADS: NumberOption = NumberOption {
    name: "threads",
    least: 1,
    most: 65_536,
    help: "Thread numbers ever given: 1 to 65536, default 256. A start of one more answers 1450",
};

const HANDLES: NumberOption = NumberOption {
    name: "handles",
    least: 1,
    most: 16_384,
    help: "Handles of one process: 1 to 16384, default 1024. A call that would give one more answers 1450",
};

const WAITS: NumberOption = NumberOption {
    name: "waits",
    least: 1,
    most: 4_294_967_295,
    help: "Wait numbers ever given: 1 to 4294967295, default 1000000. A wait that would need one more answers 1450",
};

const MAX_PINS: NumberOption = NumberOption {
    name: "max-pins",
    least: 1,
    most: 1_073_741_823,
    help: "Pins of one slot: 1 to 1073741823, the default. One more is refused",
};

const MAX_GEN: NumberOption = NumberOption {
    name: "max-gen",
    least: 1,
    most: 4_294_967_295,
    help: "Generations of one slot: 1 to 4294967295, the default. After the last the slot is retired",
};

const MAX_RECURSION: NumberOption = NumberOption {
    name: "max-recursion",
    least: 1,
    most: 2_147_483_647,
    help: "Recursion of a mutex: 1 to 2147483647, the default. A wait of its owner at it answers 1450",
};

const LANES: NumberOption = NumberOption {
    name: "lanes",
    least: 0,
    most: 64,
    help: "Lanes of the script, each on a thread: 0 to 64, default 0. A line `@2 ..` is lane 2's, lines before \
           the first of these come before all lanes, and answers are printed lane by lane",
};

/// The limits.
const LIMITS: [NumberOption; 8] = [
    SLOTS,
    PROCESSES,
    THREADS,
    HANDLES,
    WAITS,
    MAX_PINS,
    MAX_GEN,
    MAX_RECURSION,
];

impl NumberOption {
    /// The number that a text is, in decimal digits, where the option takes it.
    fn number(self, text: &str) -> Option<u32>
        ensures { IfSome result (λ n. (self.least ≤ n) × (n ≤ self.most)) }
    {
        if text.starts_with('+') {
            return None;
        }
        match text.parse::<u32>() {
            Ok(number) if self.least <= number && number <= self.most => Some(number),
            _ => None,
        }
    }
}

/// Why a command line gives no options.
#[derive(Debug, Drop, Error)]
pub enum OptionsFault {
    /// An argument that is no option, an option twice or without a value, a value that is no number in its range, or
    /// two options that don't stand beside one another.
    #[error("bad command line")]
    BadLine,
    /// Memory was wanting.
    #[error("no memory")]
    Memory,
    /// The help or the version was asked for, which is this text.
    #[error("{text}")]
    Help { text: String },
}

impl From<AllocError> for OptionsFault {
    fn from(_error: AllocError) -> OptionsFault {
        OptionsFault::Memory
    }
}

/// Reads the arguments after the program's name, by the habits of `clap`: `--slots 4` or `--slots=4`, in any order,
/// each option at most once, `--help` or `-h`, and `--version` or `-V`. The options are the *profile*'s: one for each
/// limit of [`Limits`], `--reuse`, `--repeats`, `--more`, `--lanes`, `--load` and `--save`. A savestate has limits of
/// its own, and lanes go over new managers alone: beside `--load` stands no limit, no `--reuse` and no `--repeats`, and
/// beside `--load` and `--save` no `--lanes`.
pub fn read_options(alloc: Global, args: Vec<String>) -> Result<Options, OptionsFault>
    ensures lanes { IfOk result (λ options. options.lanes ≤ 64) }
{
    match command(alloc)?.try_get_matches_from(args.as_slice()) {
        Ok(matches) => Ok(Options {
            limits: limits_of(&matches)?,
            more: matches.get_flag("more"),
            lanes: given(&matches, LANES, 0)?,
            load: path_of(alloc, &matches, "load")?,
            save: path_of(alloc, &matches, "save")?,
            dump: matches.get_flag("dump"),
        }),
        Err(error) => Err(fault_of(alloc, &error)),
    }
}

/// The first option among the arguments of a bad command line that takes a number, and has none that it takes behind
/// it.
pub fn without_its_number(args: &[String]) -> Option<NumberOption> {
    for (at, word) in args.iter().enumerate() {
        if let Some(option) = option_of(word.as_str())
            && option
                .number(value_of(word.as_str(), args.get(at.saturating_add(1))))
                .is_none()
        {
            return Some(option);
        }
    }
    None
}

/// The option that takes a number and that an argument names.
fn option_of(word: &str) -> Option<NumberOption> {
    let named = word.strip_prefix("--")?;
    let name = match named.split_once('=') {
        Some((name, _)) => name,
        None => named,
    };
    if name == LANES.name {
        return Some(LANES);
    }
    for option in LIMITS {
        if name == option.name {
            return Some(option);
        }
    }
    None
}

/// The value of an option, in its argument or the next one; nothing where it has none.
fn value_of<'a>(word: &'a str, next: Option<&'a String>) -> &'a str {
    match word.split_once('=') {
        Some((_, value)) => value,
        None => match next {
            Some(next) => next.as_str(),
            None => "",
        },
    }
}

/// The command, with an option for each limit, one for numbers that come back, one for more lines, one for lanes and
/// two for savestates.
fn command<'a>(alloc: Global) -> Result<Command<'a>, AllocError> {
    let mut command = Command::new(alloc, "obman")
        .no_binary_name(true)
        .version("1.2.0")
        .about(
            "Reads a script of object manager calls from standard input and prints their answers.",
        );
    for option in LIMITS {
        command = command.arg(number(alloc, option)?)?;
    }
    command
        .arg(flag(
            alloc,
            "reuse",
            "Numbers come back: a new process or thread has the least that no live one has, so that their limits are of \
             those that live at a time, and a wait is called by its thread. Not beside --load",
        )
        .conflicts_with("load")?)?
        .arg(flag(
            alloc,
            "repeats",
            "A handle may stand twice in a wait for any, as NT takes it: the least place that is signaled is told. Not \
             beside --load",
        )
        .conflicts_with("load")?)?
        .arg(flag(
            alloc,
            "more",
            "More lines are read, too: for objects of the host's own, moments, periods, sleep, pulse, signalwait and alert",
        ))?
        .arg(
            number(alloc, LANES)?
                .conflicts_with("save")?
                .conflicts_with("dump")?,
        )?
        .arg(path(
            alloc,
            "load",
            "Savestate that the script begins with, in place of a new manager. It has limits of its own, so no \
             limit and no --lanes beside it",
        ))?
        .arg(path(
            alloc,
            "save",
            "Where the state is saved once the script is answered to its end. No --lanes beside it",
        ))?
        .arg(flag(
            alloc,
            "dump",
            "Behind the answers, what the manager holds: processes, threads and their waits, handles, objects, deadlocks. \
             No --lanes beside it",
        ))
}

/// The option of one number, which doesn't stand beside `--load`. The number is read where it is used.
fn number<'a>(alloc: Global, option: NumberOption) -> Result<Arg<'a>, AllocError> {
    Arg::new(alloc, option.name)
        .long(option.name)
        .value_name("NUMBER")
        .help(option.help)
        .action(ArgAction::Set)
        .conflicts_with("load")
}

/// The option of no value.
fn flag<'a>(alloc: Global, name: &'a str, help: &'a str) -> Arg<'a> {
    Arg::new(alloc, name)
        .long(name)
        .help(help)
        .action(ArgAction::SetTrue)
}

/// The option of one path.
fn path<'a>(alloc: Global, name: &'a str, help: &'a str) -> Arg<'a> {
    Arg::new(alloc, name)
        .long(name)
        .value_name("FILE")
        .help(help)
        .action(ArgAction::Set)
}

/// The limits that were given, each other one at its default.
fn limits_of(matches: &ArgMatches<'_>) -> Result<Limits, OptionsFault> {
    let usual = Limits::default();
    let limits = Limits::checked(
        given(matches, SLOTS, usual.slots)?,
        given(matches, PROCESSES, usual.processes)?,
        given(matches, THREADS, usual.threads)?,
        given(matches, HANDLES, usual.handles)?,
        given(matches, WAITS, usual.waits)?,
        given(matches, MAX_PINS, usual.max_pins)?,
        given(matches, MAX_GEN, usual.max_gen)?,
        given(matches, MAX_RECURSION, usual.max_recursion)?,
    );
    match limits {
        Ok(limits) => Ok(
            limits
                .with_reuse(matches.get_flag("reuse"))
                .with_repeats(matches.get_flag("repeats")),
        ),
        Err(_) => Err(OptionsFault::BadLine),
    }
}

/// The number that was given for an option, or else the usual one.
fn given(matches: &ArgMatches<'_>, option: NumberOption, usual: u32) -> Result<u32, OptionsFault>
    requires { usual ≤ option.most }
    ensures { IfOk result (λ n. n ≤ option.most) }
{
    match matches.get_str(option.name) {
        Some(text) => option.number(text).ok_or(OptionsFault::BadLine),
        None => Ok(usual),
    }
}

/// The path that was given for an option, if one was.
fn path_of(
    alloc: Global,
    matches: &ArgMatches<'_>,
    name: &str,
) -> Result<Option<String>, AllocError> {
    match matches.get_str(name) {
        Some(text) => Ok(Some(String::from_str(alloc, text)?)),
        None => Ok(None),
    }
}

/// What an answer of the parser without matches is to the caller.
fn fault_of(alloc: Global, error: &Error) -> OptionsFault {
    match error.kind() {
        ErrorKind::OutOfMemory => OptionsFault::Memory,
        ErrorKind::DisplayHelp | ErrorKind::DisplayVersion => match format!(in alloc; "{error}") {
            Ok(text) => OptionsFault::Help { text },
            Err(_) => OptionsFault::Memory,
        },
        _ => OptionsFault::BadLine,
    }
}
