//! What a device moved so far. It exists only in proofs: it takes no memory, and its methods do nothing at run time.
ghost use Rattle.std.specs.Prelude.{◌≡◌, ℕ, List};
ghost use Rattle.std.specs.Borrow.{ftrue};
ghost use Rattle.std.specs.Coded.{coded_list, coded_ℕ};

use std::marker::Model;

/// All bytes that calls moved, in order; how many calls were made, how many of them were faults, and how many found the
/// end.
#[derive(Drop)]
pub struct IoTrace {
    pub ghost bytes: { List ℕ } by { coded_list coded_ℕ },
    pub ghost calls: { ℕ } by { coded_ℕ },
    pub ghost faults: { ℕ } by { coded_ℕ },
    pub ghost ends: { ℕ } by { coded_ℕ },
}

impl Model for IoTrace {
    ghost also_owns = { λ _. ftrue };
}

/// What one call moved.
#[derive(Clone, Copy, Drop)]
pub struct Transfer<'a> {
    pub bytes: &'a [u8],
    pub is_fault: bool,
    pub is_end: bool,
}

impl IoTrace {
    ghost use Rattle.ob_script.specs.IoTraces.{no_transfer, with_transfer};

    /// A trace of no call.
    pub fn new() -> IoTrace
        ensures { result ≡ no_transfer }
    {
        IoTrace {}
    }

    /// This trace and one call more.
    #[inline(always)]
    pub fn and(&self, _moved: &Transfer<'_>) -> IoTrace
        ensures { result ≡ with_transfer self.now _moved.now }
    {
        IoTrace {}
    }
}
