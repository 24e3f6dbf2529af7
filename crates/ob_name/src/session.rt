ghost use Rattle.std.specs.Prelude.{◌<◌};

/// A session that has a namespace of its own.
#[derive(Clone, Copy, Debug, PartialEq, Eq)]
pub struct Session {
    /// Its number, above 0.
    pub number: u32,
    pub ghost above_0: { 0 < number },
}
