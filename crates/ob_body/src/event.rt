ghost use Rattle.std.specs.Prelude.{◌≡◌};
ghost use Rattle.ob_body.specs.Event.{after_set, after_reset, after_acquire};

/// The body of an event ([Event Objects]).
///
/// [Event Objects]: https://learn.microsoft.com/windows/win32/sync/event-objects
#[derive(Clone, Copy, Debug, PartialEq, Eq)]
pub struct Event {
    /// Whether it stays set until it is reset by hand; else the wait that it satisfies resets it.
    pub manual: bool,
    /// Whether it is set, which is when it is signaled, for every thread.
    pub set: bool,
}

impl Event {
    /// Sets the event.
    pub(crate) fn set(&mut self)
        ensures { self.new ≡ after_set self.old }
    {
        self.set = true;
    }

    /// Resets the event.
    pub(crate) fn reset(&mut self)
        ensures { self.new ≡ after_reset self.old }
    {
        self.set = false;
    }

    /// What a satisfied wait does: an event that isn't reset by hand is reset.
    pub(crate) fn acquire(&mut self)
        ensures { self.new ≡ after_acquire self.old }
    {
        self.set = self.set && self.manual;
    }
}
