use crate::objects::Objects;
use crate::signaled::SignaledSlots;
use ob_name::Directory;
use ob_tables::{Limits, Processes, Tables};
use ob_waits::Waits;
use pin_words::PinKeeper;

/// The parts of a store. Nothing ties them here, so that they can change one after another.
#[derive(Drop)]
pub(crate) struct Parts<K: PinKeeper> {
    pub(crate) limits: Limits,
    pub(crate) processes: Processes,
    pub(crate) tables: Tables,
    pub(crate) objects: Objects<K>,
    pub(crate) waits: Waits,
    pub(crate) names: Directory,
    pub(crate) signaled: SignaledSlots,
}
