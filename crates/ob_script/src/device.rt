ghost use Rattle.std.specs.Prelude.{◌≡◌, ◌+◌, ◌<◌, ◌≤◌, ◌++◌, ℕ, List, IfOk, Ok, length, vec_len};
ghost use Rattle.ob_script.specs.Devices.{moved, read_faults, write_faults};

use std::alloc::{AllocError, Global};

/// How many reads, and how many writes, a run of a script makes at most.
pub const CALLS_MOST: u64 = 1_000_000_000;

/// How many bytes are read at once, at most.
pub const READ_MOST: usize = 65536;

/// Why a call of a device moved no byte.
#[derive(Clone, Copy, Debug, PartialEq, Eq)]
pub enum DeviceError {
    /// It was interrupted, and may be made again.
    Interrupted,
    /// The device failed.
    Failed,
}

/// Where a script is read from.
pub trait Source {
    // The bytes that it gave so far.
    ghost given: { Self → List ℕ };

    // How many reads were made, and how many of them failed.
    ghost calls: { Self → ℕ };

    ghost faults: { Self → ℕ };

    // Its last read found the end.
    ghost HasEnded: { Self → Type 0 };

    /// Reads into the front of a block, and says how many bytes; none only at the end.
    fn read(&mut self, block: &mut [u8]) -> Result<usize, DeviceError>
        requires { 0 < length block.old }
        ensures bound { IfOk result (λ count. count ≤ length block.new) }
        ensures given { given self.new ≡ given self.old ++ moved result block.new }
        ensures calls { calls self.new ≡ calls self.old + 1 }
        ensures faults { faults self.new ≡ faults self.old + read_faults result }
        ensures end { result ≡ Ok 0 → HasEnded self.new };
}

/// Where answers are written.
pub trait Sink {
    // The bytes that it took so far.
    ghost taken: { Self → List ℕ };

    // How many writes were made, and how many of them failed or took no byte.
    ghost calls: { Self → ℕ };

    ghost faults: { Self → ℕ };

    /// Writes the front of some bytes, and says how many.
    fn write(&mut self, bytes: &[u8]) -> Result<usize, DeviceError>
        requires { 0 < length bytes.now }
        ensures bound { IfOk result (λ count. count ≤ length bytes.now) }
        ensures taken { taken self.new ≡ taken self.old ++ moved result bytes.now }
        ensures calls { calls self.new ≡ calls self.old + 1 }
        ensures faults { faults self.new ≡ faults self.old + write_faults result };
}

/// So many bytes, each 0, which a source reads into.
pub fn zeros(alloc: Global, count: usize) -> Result<Vec<u8>, AllocError>
    ensures { IfOk result (λ bytes. vec_len bytes ≡ count) }
{
    vec![in alloc; 0u8; count]
}
