ghost use Rattle.std.specs.Prelude.{◌≡◌, ◌≤◌, ◌↔◌, IsOk, IfErr, IfOk, false, if◌then◌else◌, true};
ghost use Rattle.ob_tables.specs.Limits.{AreInRange, flagged};

use ob_codec::{Cursor, ReadFault, Spelled, TextFault};
use ob_rights::Fault;
use pin_core::Shape;
use std::alloc::{AllocError, Global};

/// What is added to a number of a savestate's limits where something is so: more than the number can be.
const FLAG: u32 = 2_147_483_648;

/// A number of limits in a savestate, which says as well whether something is so.
fn flagged(number: u32, flag: bool) -> u32
    requires { number ≤ 2147483647 }
    ensures { result ≡ flagged number flag }
{
    if flag { number + FLAG } else { number }
}

/// How much a manager may hold. The ranges and the defaults are this project's own (*profile*).
#[derive(Clone, Copy, Debug, PartialEq, Eq)]
pub struct Limits {
    /// Slots of the arena: 1 to 65,536, by default 64.
    pub slots: u32,
    /// Process numbers: those ever given, or those of live processes where numbers come back. 1 to 65,536, by default
    /// 64.
    pub processes: u32,
    /// Thread numbers, counted alike: 1 to 65,536, by default 256.
    pub threads: u32,
    /// Entries of one handle table: 1 to 16,384, by default 1,024.
    pub handles: u32,
    /// Wait numbers ever given: 1 to 4,294,967,295, by default 1,000,000. Where numbers come back nothing is refused
    /// for it.
    pub waits: u32,
    /// Pins of one slot: 1 to 1,073,741,823, the default.
    pub max_pins: u32,
    /// The last generation of a slot: 1 to 4,294,967,295, the default.
    pub max_gen: u32,
    /// Recursion of a mutex: 1 to 2,147,483,647, the default.
    pub max_recursion: u32,
    /// Whether numbers come back: then a new process or thread gets the least number that no live one has, as Windows
    /// gives process and thread Ids again, and a wait is called by the number of its thread. By default each number is
    /// given once. [`with_reuse`](Limits::with_reuse) sets it.
    pub reuse: bool,
    /// Whether a handle may stand twice in a wait for any, as Windows takes it: the first place that is signaled is told.
    /// By default that is refused with 87, as the page of [WaitForMultipleObjects] has it, and in a wait for all always.
    /// [`with_repeats`](Limits::with_repeats) sets it.
    ///
    /// [WaitForMultipleObjects]: https://learn.microsoft.com/windows/win32/api/synchapi/nf-synchapi-waitformultipleobjects
    pub repeats: bool,
    pub ghost in_range: { AreInRange slots processes threads handles waits max_pins max_gen max_recursion },
}

impl Limits {
    /// These limits, in the order of the fields; `Fault::Parameter` (87) where one is out of its range.
    pub fn checked(
        slots: u32,
        processes: u32,
        threads: u32,
        handles: u32,
        waits: u32,
        max_pins: u32,
        max_gen: u32,
        max_recursion: u32,
    ) -> Result<Limits, Fault>
        ensures in_range { IsOk result
            ↔ AreInRange slots processes threads handles waits max_pins max_gen max_recursion }
        ensures slots { IfOk result (λ limits. limits.slots ≡ slots) }
        ensures processes { IfOk result (λ limits. limits.processes ≡ processes) }
        ensures threads { IfOk result (λ limits. limits.threads ≡ threads) }
        ensures handles { IfOk result (λ limits. limits.handles ≡ handles) }
        ensures waits { IfOk result (λ limits. limits.waits ≡ waits) }
        ensures max_pins { IfOk result (λ limits. limits.max_pins ≡ max_pins) }
        ensures max_gen { IfOk result (λ limits. limits.max_gen ≡ max_gen) }
        ensures max_recursion { IfOk result (λ limits. limits.max_recursion ≡ max_recursion) }
        ensures once { IfOk result (λ limits. limits.reuse ≡ false) }
        ensures apart { IfOk result (λ limits. limits.repeats ≡ false) }
        ensures refused { IfErr result (λ fault. fault ≡ Fault.Parameter) }
    {
        if slots < 1
            || slots > 65_536
            || processes < 1
            || processes > 65_536
            || threads < 1
            || threads > 65_536
            || handles < 1
            || handles > 16_384
        {
            return Err(Fault::Parameter);
        }
        if waits < 1
            || max_pins < 1
            || max_pins > 1_073_741_823
            || max_gen < 1
            || max_recursion < 1
            || max_recursion > 2_147_483_647
        {
            return Err(Fault::Parameter);
        }
        Ok(Limits {
            slots,
            processes,
            threads,
            handles,
            waits,
            max_pins,
            max_gen,
            max_recursion,
            reuse: false,
            repeats: false,
        })
    }

    /// The same limits, for a manager whose numbers come back, or are each given once.
    pub fn with_reuse(mut self, reuse: bool) -> Limits
        ensures { result ≡ record self { reuse = reuse } }
    {
        self.reuse = reuse;
        self
    }

    /// The same limits, for a manager that takes a handle twice in a wait for any, or refuses it.
    pub fn with_repeats(mut self, repeats: bool) -> Limits
        ensures { result ≡ record self { repeats = repeats } }
    {
        self.repeats = repeats;
        self
    }
}

impl Limits {
    ghost use Rattle.pin_core.specs.Shapes.{IsWithinLimits, shape_of};

    /// The last number that a wait may have.
    pub fn last_wait(&self) -> u32
        ensures { result ≡ if self.now.reuse then 4294967295 else self.now.waits }
    {
        if self.reuse { u32::MAX } else { self.waits }
    }

    /// The shape of the slots.
    pub fn shape(&self) -> Shape
        ensures shape { result ≡ shape_of self.now.slots self.now.max_pins self.now.max_gen }
        ensures within { IsWithinLimits result }
    {
        Shape {
            slots: self.slots,
            max_pins: self.max_pins,
            max_gen: self.max_gen,
        }
    }
}

/// Eight numbers of four bytes, in the order of the fields. 2,147,483,648 is added to the last where numbers come back,
/// and to that of the pins where a handle may stand twice; [`TextFault::Value`] where one is out of its range.
impl Spelled for Limits {
    ghost use Rattle.ob_codec.specs.Spelling.{Any};
    ghost use Rattle.ob_tables.specs.SavedLimits.{limits_at, limits_text};
    ghost use Rattle.ob_tables.specs.SavedLimitLaws.{limits_codec};

    ghost spell = { limits_text };

    ghost read_at = { limits_at };

    ghost Fits = { Any };

    fn write(&self, out: &mut Vec<u8>) -> Result<(), AllocError> {
        self.slots.write(out)?;
        self.processes.write(out)?;
        self.threads.write(out)?;
        self.handles.write(out)?;
        self.waits.write(out)?;
        flagged(self.max_pins, self.repeats).write(out)?;
        self.max_gen.write(out)?;
        flagged(self.max_recursion, self.reuse).write(out)
    }

    fn read(_alloc: Global, from: &mut Cursor<'_>) -> Result<Limits, ReadFault> {
        let slots = from.four()?;
        let processes = from.four()?;
        let threads = from.four()?;
        let handles = from.four()?;
        let waits = from.four()?;
        let pins = from.four()?;
        let max_gen = from.four()?;
        let last = from.four()?;
        match Limits::checked(
            slots,
            processes,
            threads,
            handles,
            waits,
            pins % FLAG,
            max_gen,
            last % FLAG,
        ) {
            Ok(limits) => Ok(limits.with_reuse(last >= FLAG).with_repeats(pins >= FLAG)),
            Err(_) => Err(ReadFault::Text(TextFault::Value)),
        }
    }

    ghost codec = { limits_codec };
}

impl Default for Limits {
    fn default() -> Limits
        ensures slots { result.slots ≡ 64 }
        ensures processes { result.processes ≡ 64 }
        ensures threads { result.threads ≡ 256 }
        ensures handles { result.handles ≡ 1024 }
        ensures waits { result.waits ≡ 1000000 }
        ensures max_pins { result.max_pins ≡ 1073741823 }
        ensures max_gen { result.max_gen ≡ 4294967295 }
        ensures max_recursion { result.max_recursion ≡ 2147483647 }
        ensures once { result.reuse ≡ false }
        ensures apart { result.repeats ≡ false }
    {
        Limits {
            slots: 64,
            processes: 64,
            threads: 256,
            handles: 1_024,
            waits: 1_000_000,
            max_pins: 1_073_741_823,
            max_gen: 4_294_967_295,
            max_recursion: 2_147_483_647,
            reuse: false,
            repeats: false,
        }
    }
}
