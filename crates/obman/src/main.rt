//! The program: reads a script from standard input, and prints its answers to standard output. A script may begin with
//! a savestate in a file, and its own state be saved in one.
#![tactic(auto)]

ghost use Rattle.std.specs.Prelude.{◌≤◌, IfOk};

mod states;

use crate::states::run_states;
use ob_console::{
    Options, OptionsFault, RunFault, read_options, run, run_lanes, without_its_number,
};
use ob_script::Wired;
use std::env;
use std::fmt::Display;
use std::io::{self, ErrorKind};
use std::process::ExitCode;

/// Ends with 0 at the end of the input, or where the help or the version was asked for; with 1 after a fault; with 2
/// where the command line is bad.
fn main(rt: HostRuntime) -> ExitCode {
    let options = match options_of(&rt) {
        Ok(options) => options,
        Err(OptionsFault::Help { text }) => return helped(&rt, text.as_str()),
        Err(OptionsFault::BadLine) => return badly_asked(&rt),
        Err(fault) => return ended(&rt, fault, 1),
    };
    let mut source = Wired::new(rt.stdin());
    let mut sink = Wired::new(rt.stdout());
    let (alloc, more, limits) = (rt.alloc(), options.more, options.limits);
    if options.lanes > 0 {
        let answered = run_lanes(
            &rt,
            alloc,
            more,
            limits,
            options.lanes,
            &mut source,
            &mut sink,
        );
        return ended_by(&rt, answered);
    }
    if options.load.is_some() || options.save.is_some() || options.dump {
        let answered = run_states(&rt, &options, &mut source, &mut sink);
        return ended_by(&rt, answered);
    }
    ended_by(&rt, run(alloc, more, limits, &mut source, &mut sink))
}

/// Ends well, or says which fault ended the script.
fn ended_by<E: Display + Drop>(rt: &HostRuntime, answered: Result<(), E>) -> ExitCode {
    match answered {
        Ok(()) => ExitCode::SUCCESS,
        Err(fault) => ended(rt, fault, 1),
    }
}

/// The options of the command line. An argument that isn't UTF-8 makes it bad.
fn options_of(rt: &HostRuntime) -> Result<Options, OptionsFault>
    ensures { IfOk result (λ options. options.lanes ≤ 64) }
{
    let args = args_of(rt).map_err(|error| fault_of(&error))?;
    read_options(rt.alloc(), args)
}

/// The arguments behind the program's name.
fn args_of(rt: &HostRuntime) -> io::Result<Vec<String>> {
    let mut words = env::args(rt)?;
    let _program = words.next();
    Ok(words.collect(rt.alloc())?)
}

/// Says that the command line is bad, and of which option the number.
fn badly_asked(rt: &HostRuntime) -> ExitCode {
    let status = ended(rt, OptionsFault::BadLine, 2);
    if let Ok(args) = args_of(rt)
        && let Some(option) = without_its_number(args.as_slice())
    {
        let (name, least, most) = (option.name, option.least, option.most);
        let _ = eprintln!(rt; "obman: --{name} takes a number from {least} to {most}");
    }
    status
}

/// Why the arguments can't be had.
fn fault_of(error: &io::Error) -> OptionsFault {
    match error.kind() {
        ErrorKind::OutOfMemory => OptionsFault::Memory,
        _ => OptionsFault::BadLine,
    }
}

/// Prints the help, or the version.
fn helped(rt: &HostRuntime, text: &str) -> ExitCode {
    match print!(rt; "{text}") {
        Ok(()) => ExitCode::SUCCESS,
        Err(_) => ended(rt, RunFault::Write, 1),
    }
}

/// Says why the program ends, on standard error.
fn ended<E: Display + Drop>(rt: &HostRuntime, why: E, status: u8) -> ExitCode {
    let _ = eprintln!(rt; "obman: {why}");
    ExitCode::from(status)
}
