ghost use Rattle.std.specs.Prelude.{◌≡◌, map};
ghost use Rattle.least.specs.Dues.{IsLeast};
ghost use Rattle.ob_waits.specs.Form.{slot_due};
ghost use Rattle.ob_store.specs.Dues.{dues_of, reached};

use crate::object_headers::ObjectHeaders;
use crate::store::Store;
use least::sooner;
use ob_waits::LAST_MOMENT;
use pin_words::PinKeeper;

/// A moment that a tick can reach, or none.
fn reached(moment: Option<u64>) -> Option<u64>
    ensures { result ≡ reached moment }
{
    match moment {
        Some(moment) if moment <= LAST_MOMENT => Some(moment),
        _ => None,
    }
}

impl ObjectHeaders {
    fn least_due(&self) -> Option<u64>
        ensures { IsLeast (map slot_due self.now.seen.bodies) result }
    {
        self.timers.least()
    }
}

impl<K: PinKeeper> Store<K> {
    /// The least moment that a tick can reach at which a timer or a pending wait's deadline is due, or none where there
    /// is no such moment. It is known at once, except that the deadlines of waits that were answered before they came
    /// are dropped here, each once.
    pub fn next_due(&mut self) -> Option<u64>
        ensures least { IsLeast (dues_of self.old.state) result }
        ensures same { self.new ≡ self.old }
    {
        let timers = self.parts.objects.headers.least_due();
        let waits = self.parts.waits.next_due();
        reached(sooner(timers, waits))
    }
}
