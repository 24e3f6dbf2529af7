ghost use Rattle.std.specs.Prelude.{◌≡◌, ◌<◌, []};

use crate::device::{DeviceError, Sink, Source};
use crate::io_trace::{IoTrace, Transfer};
use std::io::{self, ErrorKind, Read, Write};

/// A reader or a writer of std as a [`Source`] or a [`Sink`]. What a writer buffers, its owner flushes.
#[derive(Drop)]
pub struct Wired<D> {
    device: D,
    pub io_trace: IoTrace,
}

impl<D> Wired<D> {
    /// A device of which no call was made yet.
    pub fn new(device: D) -> Wired<D>
        ensures bytes { result.io_trace.bytes ≡ [] }
        ensures calls { result.io_trace.calls ≡ 0 }
        ensures faults { result.io_trace.faults ≡ 0 }
    {
        Wired {
            device,
            io_trace: IoTrace::new(),
        }
    }
}

impl<R: Read + Drop> Source for Wired<R> {
    ghost given = { λ wired. wired.io_trace.bytes };

    ghost calls = { λ wired. wired.io_trace.calls };

    ghost faults = { λ wired. wired.io_trace.faults };

    ghost HasEnded = { λ wired. 0 < wired.io_trace.ends };

    fn read(&mut self, block: &mut [u8]) -> Result<usize, DeviceError> {
        match self.device.read(block) {
            Ok(count) => {
                self.io_trace = self.io_trace.and(&Transfer {
                    bytes: &block[..count],
                    is_fault: false,
                    is_end: count == 0,
                });
                Ok(count)
            }
            Err(error) => {
                let device_error = device_error_of(&error);
                self.io_trace = self.io_trace.and(&Transfer {
                    bytes: &[],
                    is_fault: device_error == DeviceError::Failed,
                    is_end: false,
                });
                Err(device_error)
            }
        }
    }
}

impl<W: Write + Drop> Sink for Wired<W> {
    ghost taken = { λ wired. wired.io_trace.bytes };

    ghost calls = { λ wired. wired.io_trace.calls };

    ghost faults = { λ wired. wired.io_trace.faults };

    fn write(&mut self, bytes: &[u8]) -> Result<usize, DeviceError> {
        match self.device.write(bytes) {
            Ok(count) => {
                self.io_trace = self.io_trace.and(&Transfer {
                    bytes: &bytes[..count],
                    is_fault: count == 0,
                    is_end: false,
                });
                Ok(count)
            }
            Err(error) => {
                let device_error = device_error_of(&error);
                self.io_trace = self.io_trace.and(&Transfer {
                    bytes: &[],
                    is_fault: device_error == DeviceError::Failed,
                    is_end: false,
                });
                Err(device_error)
            }
        }
    }
}

/// An interruption may be repeated; another error is a failure.
fn device_error_of(error: &io::Error) -> DeviceError {
    match error.kind() {
        ErrorKind::Interrupted => DeviceError::Interrupted,
        _ => DeviceError::Failed,
    }
}
