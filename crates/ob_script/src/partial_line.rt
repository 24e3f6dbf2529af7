ghost use Rattle.std.specs.Prelude.{◌≡◌, ◌↔◌, [], None, Some, IsTrue, MatchOption};
ghost use Rattle.ob_script.specs.PartialLines.{extended_line};

use arrayvec::ArrayVec;
use std::marker::Model;

/// The beginning of a line whose end has not come. A line that is too long for any command is not kept.
#[derive(Drop)]
pub struct PartialLine {
    bytes: ArrayVec<u8, 4097>,
    is_long: bool,
}

impl Model for PartialLine {
    ghost use Rattle.std.specs.Prelude.{ℕ, List, Option};
    ghost use Rattle.ob_script.specs.PartialLines.{partial_line_of};

    ghost Value = { Option (List ℕ) };

    ghost view = { λ line. partial_line_of line.is_long line.bytes.items };
}

impl PartialLine {
    /// A line of which nothing has come.
    pub fn new() -> PartialLine
        ensures { result ≡ Some [] }
    {
        PartialLine {
            bytes: ArrayVec::new(),
            is_long: false,
        }
    }

    /// Whether nothing has come.
    pub fn is_empty(&self) -> bool
        ensures { IsTrue result ↔ (self.now ≡ Some []) }
    {
        !self.is_long && self.bytes.is_empty()
    }

    /// More of the line has come.
    pub fn extend(&mut self, part: &[u8])
        ensures { self.new ≡ extended_line self.old part.now }
    {
        if self.is_long {
            return;
        }
        if self.bytes.try_extend_from_slice(part).is_err() {
            self.is_long = true;
        }
    }

    /// What has come of the line; none where it is too long for any command.
    pub fn line(&self) -> Option<&[u8]>
        ensures { MatchOption result (self.now ≡ None) (λ line. self.now ≡ Some line.now) }
    {
        if self.is_long {
            return None;
        }
        Some(self.bytes.as_slice())
    }

    /// The line has ended: nothing has come of the next one.
    pub fn clear(&mut self)
        ensures { self.new ≡ Some [] }
    {
        self.bytes.clear();
        self.is_long = false;
    }
}
