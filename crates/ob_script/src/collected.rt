ghost use Rattle.std.specs.Prelude.{◌≡◌, ◌+◌, ◌<◌, ◌≤◌, [], Err, IfNone, IfSome, length};
ghost use Rattle.ob_script.specs.declared.device.DeviceError.TheVariants.{Failed};

use crate::device::{DeviceError, Sink};
use crate::io_trace::{IoTrace, Transfer};
use std::alloc::Global;

/// Memory as a [`Sink`]: what was written, one write behind another, as long as that is at most so many bytes; behind
/// them it is counted and not kept. A write for which memory is wanting fails.
#[derive(Drop)]
pub struct Collected {
    kept: Vec<u8>,
    pub most: usize,
    count: usize,
    pub io_trace: IoTrace,
    ghost counted: { count ≡ length io_trace.bytes },
    ghost whole: { count ≤ most → kept.items ≡ io_trace.bytes },
}

impl Collected {
    /// A sink to which nothing was written, and which keeps so many bytes at most. It takes no memory.
    pub fn new(alloc: Global, most: usize) -> Collected
        ensures most { result.most ≡ most }
        ensures bytes { result.io_trace.bytes ≡ [] }
        ensures calls { result.io_trace.calls ≡ 0 }
        ensures faults { result.io_trace.faults ≡ 0 }
    {
        Collected {
            kept: Vec::new(alloc),
            most,
            count: 0,
            io_trace: IoTrace::new(),
        }
    }

    /// How many bytes were written.
    pub fn len(&self) -> usize
        ensures { result ≡ length self.now.io_trace.bytes }
    {
        self.count
    }

    /// All that was written, where it isn't too much.
    pub fn whole(&self) -> Option<&[u8]>
        ensures bytes { IfSome result (λ bytes. bytes.now ≡ self.now.io_trace.bytes) }
        ensures fits { IfSome result (λ bytes. length bytes.now ≤ self.now.most) }
        ensures none { IfNone result (self.now.most < length self.now.io_trace.bytes) }
    {
        if self.count > self.most {
            return None;
        }
        Some(self.kept.as_slice())
    }

    /// A write that took nothing.
    fn failed(&mut self) -> Result<usize, DeviceError>
        ensures result { result ≡ Err Failed }
        ensures bytes { self.new.io_trace.bytes ≡ self.old.io_trace.bytes }
        ensures calls { self.new.io_trace.calls ≡ self.old.io_trace.calls + 1 }
        ensures faults { self.new.io_trace.faults ≡ self.old.io_trace.faults + 1 }
        ensures most { self.new.most ≡ self.old.most }
    {
        self.io_trace = self.io_trace.and(&Transfer {
            bytes: &[],
            is_fault: true,
            is_end: false,
        });
        Err(DeviceError::Failed)
    }
}

impl Sink for Collected {
    ghost taken = { λ collected. collected.io_trace.bytes };

    ghost calls = { λ collected. collected.io_trace.calls };

    ghost faults = { λ collected. collected.io_trace.faults };

    fn write(&mut self, bytes: &[u8]) -> Result<usize, DeviceError> {
        let Some(count) = self.count.checked_add(bytes.len()) else {
            return self.failed();
        };
        if count > self.most {
            self.kept.clear();
            self.kept.shrink_to_fit();
        } else if self.kept.extend_from_slice(bytes).is_err() {
            return self.failed();
        }
        self.count = count;
        self.io_trace = self.io_trace.and(&Transfer {
            bytes,
            is_fault: false,
            is_end: false,
        });
        Ok(bytes.len())
    }
}
