use crate::wait::Wait;

/// A wait with its number.
#[derive(Drop)]
pub struct NumberedWait {
    /// The number.
    pub number: u32,
    /// The wait.
    pub wait: Wait,
}
