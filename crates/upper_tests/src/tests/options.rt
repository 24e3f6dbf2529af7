//! What a command line says: all of it by the habits of `clap`, of which no clause speaks.
use crate::tests::holds_at;
use ob_console::{Options, OptionsFault, read_options, without_its_number};
use ob_manager::Limits;
use std::alloc::{AllocError, Global};
use std::test::Fail;

/// What is due to be read of a command line.
#[derive(Clone, Copy)]
enum Due {
    /// The limits, in the order of the options, and how many lanes.
    Numbers([u32; 8], u32),
    /// The usual limits, of numbers that come back, and how many lanes.
    Reused(u32),
    /// The usual limits, where a handle may stand twice.
    Repeated,
    /// The usual limits with the lines that `--more` adds, and how many lanes.
    More(u32),
    /// The path of what is loaded, and that of what is saved.
    Paths(Option<&'static str>, Option<&'static str>),
    /// A bad command line: which option lacks its number, with the least and the greatest that it takes.
    Bad(Option<(&'static str, u32, u32)>),
}

/// The greatest number of generations, and of wait numbers.
const LAST: u32 = 4_294_967_295;

const PINS: u32 = 1_073_741_823;

const TIMES: u32 = 2_147_483_647;

/// The limits without an argument.
const USUAL: [u32; 8] = [64, 64, 256, 1_024, 1_000_000, PINS, LAST, TIMES];

const NO_SLOTS: Due = Due::Bad(Some(("slots", 1, 65_536)));

const NO_PROCESSES: Due = Due::Bad(Some(("processes", 1, 65_536)));

const NO_THREADS: Due = Due::Bad(Some(("threads", 1, 65_536)));

const NO_HANDLES: Due = Due::Bad(Some(("handles", 1, 16_384)));

const NO_WAITS: Due = Due::Bad(Some(("waits", 1, LAST)));

const NO_PINS: Due = Due::Bad(Some(("max-pins", 1, PINS)));

const NO_GENERATIONS: Due = Due::Bad(Some(("max-gen", 1, LAST)));

const NO_RECURSION: Due = Due::Bad(Some(("max-recursion", 1, TIMES)));

const NO_LANES: Due = Due::Bad(Some(("lanes", 0, 64)));

/// Command lines, each with what is due to be read of it.
#[rattlefmt::skip]
const ROWS: &[(&[&str], Due)] = &[
    (&[], Due::Numbers(USUAL, 0)),
    (&["--"], Due::Numbers(USUAL, 0)),
    // each option alone, at its ends and past them, in both forms
    (&["--slots=1"], Due::Numbers([1, 64, 256, 1_024, 1_000_000, PINS, LAST, TIMES], 0)),
    (&["--slots", "65536"], Due::Numbers([65_536, 64, 256, 1_024, 1_000_000, PINS, LAST, TIMES], 0)),
    (&["--slots", "0"], NO_SLOTS),
    (&["--slots", "65537"], NO_SLOTS),
    (&["--processes", "1"], Due::Numbers([64, 1, 256, 1_024, 1_000_000, PINS, LAST, TIMES], 0)),
    (&["--processes=65536"], Due::Numbers([64, 65_536, 256, 1_024, 1_000_000, PINS, LAST, TIMES], 0)),
    (&["--processes", "0"], NO_PROCESSES),
    (&["--processes=65537"], NO_PROCESSES),
    (&["--threads=1"], Due::Numbers([64, 64, 1, 1_024, 1_000_000, PINS, LAST, TIMES], 0)),
    (&["--threads", "65536"], Due::Numbers([64, 64, 65_536, 1_024, 1_000_000, PINS, LAST, TIMES], 0)),
    (&["--threads=0"], NO_THREADS),
    (&["--threads", "65537"], NO_THREADS),
    (&["--handles", "1"], Due::Numbers([64, 64, 256, 1, 1_000_000, PINS, LAST, TIMES], 0)),
    (&["--handles=16384"], Due::Numbers([64, 64, 256, 16_384, 1_000_000, PINS, LAST, TIMES], 0)),
    (&["--handles", "2"], Due::Numbers([64, 64, 256, 2, 1_000_000, PINS, LAST, TIMES], 0)),
    (&["--handles", "0"], NO_HANDLES),
    (&["--handles=16385"], NO_HANDLES),
    (&["--waits=1"], Due::Numbers([64, 64, 256, 1_024, 1, PINS, LAST, TIMES], 0)),
    (&["--waits", "4294967295"], Due::Numbers([64, 64, 256, 1_024, LAST, PINS, LAST, TIMES], 0)),
    (&["--waits=0"], NO_WAITS),
    (&["--waits", "4294967296"], NO_WAITS),
    (&["--max-pins", "1"], Due::Numbers([64, 64, 256, 1_024, 1_000_000, 1, LAST, TIMES], 0)),
    (&["--max-pins=1073741823"], Due::Numbers(USUAL, 0)),
    (&["--max-pins", "0"], NO_PINS),
    (&["--max-pins=1073741824"], NO_PINS),
    (&["--max-gen=1"], Due::Numbers([64, 64, 256, 1_024, 1_000_000, PINS, 1, TIMES], 0)),
    (&["--max-gen", "4294967295"], Due::Numbers(USUAL, 0)),
    (&["--max-gen=0"], NO_GENERATIONS),
    (&["--max-gen", "4294967296"], NO_GENERATIONS),
    (&["--max-recursion", "1"], Due::Numbers([64, 64, 256, 1_024, 1_000_000, PINS, LAST, 1], 0)),
    (&["--max-recursion=2147483647"], Due::Numbers(USUAL, 0)),
    (&["--max-recursion", "0"], NO_RECURSION),
    (&["--max-recursion=2147483648"], NO_RECURSION),
    (&["--lanes=0"], Due::Numbers(USUAL, 0)),
    (&["--lanes", "1"], Due::Numbers(USUAL, 1)),
    (&["--slots=4", "--lanes", "64"], Due::Numbers([4, 64, 256, 1_024, 1_000_000, PINS, LAST, TIMES], 64)),
    (&["--lanes=65"], NO_LANES),
    (&["--lanes=4294967295"], NO_LANES),
    (&["--lanes=-1"], NO_LANES),
    (&["--lanes=+1"], NO_LANES),
    (&["--lanes"], NO_LANES),
    (&["--lanes=", "--slots=0"], NO_LANES),
    // several, and one twice
    (&["--handles", "2", "--slots=4", "--max-gen", "3"], Due::Numbers([4, 64, 256, 2, 1_000_000, PINS, 3, TIMES], 0)),
    (&["--lanes=64", "--handles", "0"], NO_HANDLES),
    (&["--slots=4", "--lanes=65"], NO_LANES),
    (&["--slots=4", "--slots=4"], Due::Bad(None)),
    (&["--slots=4", "--slots", "4", "--load", "x", "y"], Due::Bad(None)),
    (&["--lanes=2", "--lanes=2"], Due::Bad(None)),
    // numbers that come back
    (&["--reuse"], Due::Reused(0)),
    (&["--lanes=2", "--reuse"], Due::Reused(2)),
    (&["--reuse", "--reuse"], Due::Bad(None)),
    (&["--reuse=1"], Due::Bad(None)),
    (&["--reuse", "1"], Due::Bad(None)),
    (&["--reuse", "--load=a"], Due::Bad(None)),
    // handles that stand twice
    (&["--repeats"], Due::Repeated),
    (&["--repeats", "--load=a"], Due::Bad(None)),
    // more lines
    (&["--more"], Due::More(0)),
    (&["--lanes=2", "--more"], Due::More(2)),
    (&["--more", "--load=a"], Due::Paths(Some("a"), None)),
    (&["--more", "--more"], Due::Bad(None)),
    (&["--more=1"], Due::Bad(None)),
    (&["--more", "1"], Due::Bad(None)),
    // no numbers
    (&["--slots"], NO_SLOTS),
    (&["--slots="], NO_SLOTS),
    (&["--slots", ""], NO_SLOTS),
    (&["--slots", "4x"], NO_SLOTS),
    (&["--slots", "0x4"], NO_SLOTS),
    (&["--slots=-1"], NO_SLOTS),
    (&["--slots", "+1"], NO_SLOTS),
    (&["--slots", "18446744073709551617"], NO_SLOTS),
    // no options
    (&["x"], Due::Bad(None)),
    (&[""], Due::Bad(None)),
    (&["--nonsense"], Due::Bad(None)),
    (&["--max_pins=4"], Due::Bad(None)),
    (&["--slot=4"], Due::Bad(None)),
    (&["-s", "4"], Due::Bad(None)),
    (&["--", "--slots=4"], Due::Bad(None)),
    (&["--slots=4", "5"], Due::Bad(None)),
    // what is loaded stands beside no limit, and a savestate beside no lanes
    (&["--slots=4"], Due::Paths(None, None)),
    (&["--load", "a b"], Due::Paths(Some("a b"), None)),
    (&["--save=a", "--handles", "2"], Due::Paths(None, Some("a"))),
    (&["--save", "a", "--load=b"], Due::Paths(Some("b"), Some("a"))),
    (&["--load"], Due::Bad(None)),
    (&["--save"], Due::Bad(None)),
    (&["--load=a", "--load=a"], Due::Bad(None)),
    (&["--save", "a", "--save", "b"], Due::Bad(None)),
    (&["--load=a", "--slots=64"], Due::Bad(None)),
    (&["--max-recursion=2", "--save=b", "--load=a"], Due::Bad(None)),
    (&["--load=a", "--lanes=0"], Due::Bad(None)),
    (&["--lanes=2", "--save=a"], Due::Bad(None)),
];

fn args_of(alloc: Global, words: &[&str]) -> Result<Vec<String>, AllocError> {
    let mut args = Vec::new(alloc);
    for word in words {
        args.push(String::from_str(alloc, word)?)?;
    }
    Ok(args)
}

fn numbers_of(limits: &Limits) -> [u32; 8] {
    [
        limits.slots,
        limits.processes,
        limits.threads,
        limits.handles,
        limits.waits,
        limits.max_pins,
        limits.max_gen,
        limits.max_recursion,
    ]
}

/// Whether these options have these limits and lanes, and these switches are on.
fn have(options: &Options, limits: [u32; 8], switches: [bool; 3], lanes: u32) -> bool {
    numbers_of(&options.limits) == limits
        && [options.limits.reuse, options.limits.repeats, options.more] == switches
        && options.lanes == lanes
}

/// Whether these options are due.
fn are_read(options: &Options, due: Due) -> bool {
    match due {
        Due::Numbers(limits, lanes) => have(options, limits, [false; 3], lanes),
        Due::Reused(lanes) => have(options, USUAL, [true, false, false], lanes),
        Due::Repeated => have(options, USUAL, [false, true, false], 0),
        Due::More(lanes) => have(options, USUAL, [false, false, true], lanes),
        Due::Paths(load, save) => options.load.as_deref() == load
            && options.save.as_deref() == save,
        Due::Bad(_) => false,
    }
}

/// Whether it is due that a command line is bad, and that this is said of it.
fn is_told(args: &[String], due: Due) -> bool {
    match (without_its_number(args), due) {
        (Some(option), Due::Bad(Some(told))) => (option.name, option.least, option.most) == told,
        (None, Due::Bad(None)) => true,
        _ => false,
    }
}

/// Whether what is due is read of a command line.
fn is_due(alloc: Global, words: &[&str], due: Due) -> Result<bool, AllocError> {
    let args = args_of(alloc, words)?;
    let is_bad = is_told(args.as_slice(), due);
    Ok(match read_options(alloc, args) {
        Ok(options) => are_read(&options, due),
        Err(fault) => is_bad && matches!(fault, OptionsFault::BadLine),
    })
}

#[test]
fn a_command_line_says_what_is_due(rt: HostRuntime) -> Result<(), Fail> {
    for (place, (words, due)) in ROWS.iter().enumerate() {
        holds_at(&rt, is_due(rt.alloc(), words, *due)?, place);
    }
    holds_at(&rt, numbers_of(&Limits::default()) == USUAL, ROWS.len());
    Ok(())
}

/// Each option with its range.
#[rattlefmt::skip]
const IN_HELP: &[&str] = &[
    "--slots <NUMBER>", "1 to 65536, default 64.",
    "--processes <NUMBER>", "Process numbers ever given: 1 to 65536, default 64.",
    "--threads <NUMBER>", "1 to 65536, default 256.",
    "--handles <NUMBER>", "1 to 16384, default 1024.",
    "--waits <NUMBER>", "1 to 4294967295, default 1000000.",
    "--max-pins <NUMBER>", "1 to 1073741823, the default.",
    "--max-gen <NUMBER>", "1 to 4294967295, the default.",
    "--max-recursion <NUMBER>", "1 to 2147483647, the default.",
    "--lanes <NUMBER>", "0 to 64, default 0.",
    "--reuse",
    "--repeats",
    "--more",
];

/// Whether a fault is the help, and a text is in it.
fn has_text(fault: &OptionsFault, text: &str) -> bool {
    match fault {
        OptionsFault::Help { text: help } => help.contains(text),
        _ => false,
    }
}

/// Whether a text is in the help.
fn is_in_help(alloc: Global, text: &str) -> Result<bool, AllocError> {
    let args = args_of(alloc, &["--slots=4", "--help"])?;
    Ok(match read_options(alloc, args) {
        Ok(_options) => false,
        Err(fault) => has_text(&fault, text),
    })
}

#[test]
fn the_help_names_each_option_with_its_range(rt: HostRuntime) -> Result<(), Fail> {
    for (place, text) in IN_HELP.iter().enumerate() {
        holds_at(&rt, is_in_help(rt.alloc(), text)?, place);
    }
    Ok(())
}
