//! The limits of a manager, as C gives them.
ghost use Rattle.std.specs.Prelude.{IfErr, IfOk};
ghost use Rattle.obman_c_base.specs.Allowed.{AreAllowed, AreAs};

use ob_manager::Limits;
use ob_rights::Fault;

/// How much a manager may hold (`om_limits`), as [`Limits`] has it.
#[repr(C)]
#[derive(Clone, Copy)]
pub struct CLimits {
    /// Slots of the arena: 1 to 65,536.
    pub slots: u32,
    /// Process numbers ever given, or of live processes where they come back: 1 to 65,536.
    pub processes: u32,
    /// Thread numbers, counted alike: 1 to 65,536.
    pub threads: u32,
    /// Entries of one handle table: 1 to 16,384.
    pub handles: u32,
    /// Wait numbers ever given, unless they come back: 1 to 4,294,967,295.
    pub waits: u32,
    /// Pins of one slot: 1 to 1,073,741,823.
    pub max_pins: u32,
    /// The last generation of a slot: 1 to 4,294,967,295.
    pub max_gen: u32,
    /// Recursion of a mutex: 1 to 2,147,483,647.
    pub max_recursion: u32,
}

/// The limits of a manager that C gives; [`Fault::Parameter`] where one is out of its range.
pub fn limits_of(bounds: &CLimits) -> Result<Limits, Fault>
    ensures same { IfOk result (λ limits. AreAs bounds.now limits) }
    ensures allowed { IfOk result (λ limits. AreAllowed bounds.now) }
    ensures refused { IfErr result (λ fault. AreAllowed bounds.now → ⊥) }
{
    Limits::checked(
        bounds.slots,
        bounds.processes,
        bounds.threads,
        bounds.handles,
        bounds.waits,
        bounds.max_pins,
        bounds.max_gen,
        bounds.max_recursion,
    )
}
