ghost use Rattle.std.specs.Prelude.{◌≡◌, ◌≤◌, false, Some};
ghost use Rattle.ob_body.specs.Timer as spec;

use ob_codec::{Cursor, ReadFault, Spelled, TextFault};
use std::alloc::{AllocError, Global};
use std::marker::Model;

/// The greatest moment that it can be, in units of 100 ns: that of a LARGE_INTEGER.
pub const LAST_MOMENT: u64 = 9_223_372_036_854_775_807;

/// The body of a waitable timer ([Waitable Timer Objects]). A moment counts units of 100 ns.
///
/// [Waitable Timer Objects]: https://learn.microsoft.com/windows/win32/sync/waitable-timer-objects
#[derive(Clone, Copy, Debug, PartialEq, Eq)]
pub struct Timer {
    manual: bool,
    signaled: bool,
    // Before the moment, so that it takes no further room.
    period: u32,
    due: Option<u64>,
}

impl Model for Timer {
    ghost use Rattle.ob_body.specs.TimerState.{TimerState, is_possible};
    ghost use Rattle.std.specs.Prelude.{◌≡◌, true};

    ghost Value = { TimerState };

    ghost view = { λ t. record { manual = t.manual; signaled = t.signaled; due = t.due; period = t.period } };

    ghost invariant = { λ t. is_possible t.signaled t.due t.period ≡ true };

    ghost inverse = { λ t. record { manual = t.manual; signaled = t.signaled; due = t.due; period = t.period } };
}

/// When a timer becomes signaled again whose moment came: at the first moment after `now` that lies a whole number of
/// periods behind it, or not, without a period.
fn due_again(now: u64, due: u64, period: u32) -> Option<u64>
    requires past { due ≤ now }
    requires last { now ≤ LAST_MOMENT }
    ensures { result ≡ spec.due_again now (Some due) period }
{
    if period == 0 {
        return None;
    }
    let units = 10_000 * u64::from(period);
    Some(due + ((now - due) / units + 1) * units)
}

impl Timer {
    ghost use Rattle.std.specs.Prelude.{◌++◌, IsSome, None, OnOk};
    ghost use Rattle.ob_codec.specs.Reading.{Gives};
    ghost use Rattle.ob_body.specs.Spelling.{TimerFits, periodic_at, periodic_text, timer_at, timer_of, timer_text};

    /// A timer that isn't signaled and isn't set.
    pub(crate) fn new(manual: bool) -> Timer
        ensures { result ≡ record { manual = manual; signaled = false; due = None; period = 0 } }
    {
        Timer {
            manual,
            signaled: false,
            due: None,
            period: 0,
        }
    }

    /// A timer as it may have become, where such a one can be.
    fn checked(manual: bool, signaled: bool, due: Option<u64>, period: u32) -> Option<Timer>
        ensures { result ≡ timer_of period (manual, (signaled, due)) }
    {
        let can_be = match due {
            None => period == 0,
            Some(_) => period > 0 || !signaled,
        };
        if !can_be {
            return None;
        }
        Some(Timer {
            manual,
            signaled,
            due,
            period,
        })
    }

    /// Whether it stays signaled until it is set again; else the wait that it satisfies resets it (a synchronization
    /// timer).
    pub fn is_manual(&self) -> bool
        ensures { result ≡ self.now.manual }
    {
        self.manual
    }

    /// Whether it is signaled, for every thread.
    pub fn is_signaled(&self) -> bool
        ensures { result ≡ self.now.signaled }
    {
        self.signaled
    }

    /// The moment at which it becomes signaled, if it is set. While one without a period is, it isn't signaled.
    pub fn due(&self) -> Option<u64>
        ensures due { result ≡ self.now.due }
        ensures unsignaled { IsSome result → self.now.period ≡ 0 → self.now.signaled ≡ false }
    {
        self.due
    }

    /// How long after its moment it becomes signaled again, and so on, in milliseconds; 0 where it doesn't, and where it
    /// isn't set.
    pub fn period(&self) -> u32
        ensures period { result ≡ self.now.period }
        ensures unset { self.now.due ≡ None → result ≡ 0 }
    {
        self.period
    }

    /// Sets the timer to a moment, and to a period; a moment that isn't after `now` comes at once.
    pub(crate) fn arm(&mut self, due: u64, now: u64, period: u32)
        requires { now ≤ LAST_MOMENT }
        ensures { self.new ≡ spec.after_arm due now period self.old }
    {
        self.signaled = false;
        self.due = Some(due);
        self.period = period;
        self.fire(now);
    }

    /// Takes the due moment and the period away.
    pub(crate) fn disarm(&mut self)
        ensures { self.new ≡ spec.after_disarm self.old }
    {
        self.due = None;
        self.period = 0;
    }

    /// Signals the timer where it is due at `now` or before.
    #[tactic(auto, using(crate::proofs::Periods::fired_undue))]
    pub(crate) fn fire(&mut self, now: u64)
        requires { now ≤ LAST_MOMENT }
        ensures value { self.new ≡ spec.after_fire now self.old }
        ensures undue { spec.is_due now self.new.due ≡ false }
    {
        let Some(due) = self.due else {
            return;
        };
        if due <= now {
            self.signaled = true;
            self.due = due_again(now, due, self.period);
        }
    }

    /// What a satisfied wait does: a synchronization timer is reset.
    pub(crate) fn acquire(&mut self)
        ensures { self.new ≡ spec.after_acquire self.old }
    {
        self.signaled = self.signaled && self.manual;
    }

    /// Writes a timer, but for its period.
    pub(crate) fn write(&self, out: &mut Vec<u8>) -> Result<(), AllocError>
        ensures text { OnOk result (out.new.items ≡ out.old.items ++ timer_text self.now) }
        ensures fits { OnOk result (TimerFits self.now) }
    {
        self.manual.write(out)?;
        self.signaled.write(out)?;
        let _ = self.period();
        self.due.write(out)
    }

    /// Writes a timer with its period.
    pub(crate) fn write_periodic(&self, out: &mut Vec<u8>) -> Result<(), AllocError>
        ensures text { OnOk result (out.new.items ≡ out.old.items ++ periodic_text self.now) }
        ensures fits { OnOk result (TimerFits self.now) }
    {
        self.write(out)?;
        self.period.write(out)
    }

    /// Reads a timer without a period.
    pub(crate) fn read(alloc: Global, from: &mut Cursor<'_>) -> Result<Timer, ReadFault>
        ensures { Gives (λ timer. timer) result (timer_at from.old) from.new }
    {
        let manual = bool::read(alloc, from)?;
        let signaled = bool::read(alloc, from)?;
        let due = Option::<u64>::read(alloc, from)?;
        match Timer::checked(manual, signaled, due, 0) {
            Some(timer) => Ok(timer),
            None => Err(ReadFault::Text(TextFault::Value)),
        }
    }

    /// Reads a timer with a period, which isn't 0.
    pub(crate) fn read_periodic(alloc: Global, from: &mut Cursor<'_>) -> Result<Timer, ReadFault>
        ensures { Gives (λ timer. timer) result (periodic_at from.old) from.new }
    {
        let manual = bool::read(alloc, from)?;
        let signaled = bool::read(alloc, from)?;
        let due = Option::<u64>::read(alloc, from)?;
        let period = from.four()?;
        if period == 0 {
            return Err(ReadFault::Text(TextFault::Value));
        }
        match Timer::checked(manual, signaled, due, period) {
            Some(timer) => Ok(timer),
            None => Err(ReadFault::Text(TextFault::Value)),
        }
    }
}
