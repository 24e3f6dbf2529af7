use ob_codec::ReadFault;
use ob_console::{Options, RunFault, run_over};
use ob_manager::{Limits, Manager};
use ob_script::{Sink, Source, dump};
use pin_words::{Keeper, LockedPins};
use std::alloc::Global;
use std::fs::{self, File, Permissions};
use std::io::{self, ErrorKind, Write};
use std::process;
use thiserror::Error;

/// Why a script that begins with a savestate, or ends with one, wasn't answered to its end, or its state not saved.
#[derive(Clone, Copy, Debug, Error)]
pub enum StateFault {
    /// A file that can't be read or written, or that is no savestate.
    #[error("no such state")]
    State,
    /// The script ended so, or memory was wanting for its state.
    #[error("{0}")]
    Run(RunFault),
}

/// Runs a script over the manager of a savestate, or a new one, and saves it behind the script's end, as the options
/// say. What is loaded is read before the script. Where the script isn't answered to its end nothing is saved.
pub fn run_states<I: Source, O: Sink>(
    rt: &HostRuntime,
    options: &Options,
    reader: &mut I,
    writer: &mut O,
) -> Result<(), StateFault> {
    // What owns much is made by functions that hand it out, and dropped by a call: then one way out lets it go.
    let manager = begun(rt, options)?;
    let after = answered(rt.alloc(), options.more, manager, reader, writer)?;
    let ended = finished(rt, options, &after);
    drop(after);
    ended
}

/// Saves the state behind the script, and prints it, as the options say.
fn finished(
    rt: &HostRuntime,
    options: &Options,
    after: &Manager<Keeper>,
) -> Result<(), StateFault> {
    if let Some(path) = &options.save {
        save(rt, path.as_str(), after)?;
    }
    if !options.dump {
        return Ok(());
    }
    let Ok(text) = dump(rt.alloc(), after) else {
        return Err(StateFault::Run(RunFault::Memory));
    };
    match print!(rt; "{text}") {
        Ok(()) => Ok(()),
        Err(_) => Err(StateFault::Run(RunFault::Write)),
    }
}

/// The manager that the script begins with.
fn begun(rt: &HostRuntime, options: &Options) -> Result<Manager<LockedPins>, StateFault> {
    match &options.load {
        Some(path) => loaded(rt, path.as_str()),
        None => made(rt.alloc(), options.limits),
    }
}

/// The manager as the script leaves it, which with `more` may have the lines that `--more` adds.
fn answered<I: Source, O: Sink>(
    alloc: Global,
    more: bool,
    manager: Manager<LockedPins>,
    reader: &mut I,
    writer: &mut O,
) -> Result<Manager<Keeper>, StateFault> {
    match run_over(alloc, more, manager, reader, writer) {
        Ok(after) => Ok(after),
        Err(fault) => Err(StateFault::Run(fault)),
    }
}

/// The manager of a savestate; what a host kept beside it is let go.
fn loaded(rt: &HostRuntime, path: &str) -> Result<Manager<LockedPins>, StateFault> {
    let bytes = fs::read(rt, path).map_err(|error| fault_of(&error))?;
    match Manager::load_with(rt.alloc(), bytes.as_slice()) {
        Ok((manager, _)) => Ok(manager),
        Err(ReadFault::Memory) => Err(StateFault::Run(RunFault::Memory)),
        Err(ReadFault::Text(_)) => Err(StateFault::State),
    }
}

/// A new manager.
fn made(alloc: Global, limits: Limits) -> Result<Manager<LockedPins>, StateFault> {
    let Ok(keeper) = LockedPins::new(alloc, limits.shape()) else {
        return Err(StateFault::Run(RunFault::Memory));
    };
    match Manager::new(alloc, limits, keeper) {
        Ok(manager) => Ok(manager),
        Err(_) => Err(StateFault::Run(RunFault::Memory)),
    }
}

/// Writes what a manager is saved as.
fn save(rt: &HostRuntime, path: &str, manager: &Manager<Keeper>) -> Result<(), StateFault> {
    let Ok(bytes) = manager.save(rt.alloc()) else {
        return Err(StateFault::Run(RunFault::Memory));
    };
    put(rt, path, bytes.as_slice()).map_err(|error| fault_of(&error))
}

/// Writes a file, or what a symbolic link leads to, whole or not at all. What is no file, as a device or a pipe, is
/// written to as it is.
fn put(rt: &HostRuntime, path: &str, bytes: &[u8]) -> io::Result<()> {
    match fs::metadata(rt, path) {
        Ok(old) if old.is_file() => {
            let file = fs::canonicalize(rt, path)?;
            replace(rt, file.as_str(), Some(old.permissions()), bytes)
        }
        Ok(_) => fs::write(rt, path, bytes),
        Err(error) if error.kind() == ErrorKind::NotFound => replace(rt, path, None, bytes),
        Err(error) => Err(error),
    }
}

/// Writes to a new file beside the one that a path names, and gives it its name once all is on the disk.
fn replace(
    rt: &HostRuntime,
    path: &str,
    permissions: Option<Permissions>,
    bytes: &[u8],
) -> io::Result<()> {
    let new = format!(in rt.alloc(); "{path}.{}", process::id(rt.process()))?;
    let file = File::create_new(rt, new.as_str())?;
    let moved = match fill(file, permissions, bytes) {
        Ok(()) => fs::rename(rt, new.as_str(), path),
        Err(error) => Err(error),
    };
    if moved.is_err() {
        let _ = fs::remove_file(rt, new.as_str());
    }
    moved
}

/// Fills a new file.
fn fill(mut file: File, permissions: Option<Permissions>, bytes: &[u8]) -> io::Result<()> {
    if let Some(permissions) = permissions {
        file.set_permissions(permissions)?;
    }
    file.write_all(bytes)?;
    file.sync_all()
}

/// Why a file can't be read or written.
fn fault_of(error: &io::Error) -> StateFault {
    match error.kind() {
        ErrorKind::OutOfMemory => StateFault::Run(RunFault::Memory),
        _ => StateFault::State,
    }
}
