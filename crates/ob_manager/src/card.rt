use ob_rights::Rights;
use pin_core::{Descr, Id};

/// What an object was created as.
#[derive(Clone, Copy, Debug, PartialEq, Eq)]
pub struct Card {
    /// The object.
    pub id: Id,
    /// Its kind, whether an event is reset by hand, and a semaphore's maximum.
    pub descr: Descr,
    /// The rights that opens may get (*profile*).
    pub grant: Rights,
}
