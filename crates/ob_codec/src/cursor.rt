ghost use Rattle.std.specs.Int.{w32, w64};
ghost use Rattle.ob_codec.specs.Reading.{Gives, GivesAll, byte_at, bytes_at, end_of, has_at, number_at, string_at};

use crate::fault::{ReadFault, TextFault};
use std::marker::Model;

/// A text that is read from the front: from the outside, the bytes that are left. Behind a fault nothing is said of
/// them.
#[derive(Drop)]
pub struct Cursor<'a> {
    rest: &'a [u8],
}

impl<'a> Model for Cursor<'a> {
    ghost use Rattle.std.specs.Prelude.{List, ℕ};

    ghost Value = { List ℕ };

    ghost view = { λ cursor. cursor.rest.now };
}

impl<'a> Cursor<'a> {
    ghost use Rattle.std.specs.Prelude.{◌≡◌};

    /// All of a text is left.
    pub fn new(text: &'a [u8]) -> Cursor<'a>
        ensures { result ≡ text.now }
    {
        Cursor { rest: text }
    }

    /// So many bytes.
    fn take(&mut self, n: usize) -> Result<&'a [u8], ReadFault>
        ensures { Gives (λ bytes. bytes.now) result (bytes_at n self.old) self.new }
    {
        if self.rest.len() < n {
            return Err(ReadFault::Text(TextFault::Short));
        }
        let (front, rest) = self.rest.split_at(n);
        self.rest = rest;
        Ok(front)
    }

    /// Whether so many bytes are left: [`TextFault::Short`] where there are fewer. Whoever takes memory for items that
    /// are still to be read asks first whether they can be there.
    pub fn has(&self, n: usize) -> Result<(), ReadFault>
        ensures { GivesAll (λ nothing. nothing) result (has_at n self.now) }
    {
        if self.rest.len() < n {
            return Err(ReadFault::Text(TextFault::Short));
        }
        Ok(())
    }

    /// A byte.
    pub fn byte(&mut self) -> Result<u8, ReadFault>
        ensures { Gives (λ byte. byte) result (byte_at self.old) self.new }
    {
        match self.rest {
            [] => Err(ReadFault::Text(TextFault::Short)),
            [byte, rest @ ..] => {
                self.rest = rest;
                Ok(*byte)
            }
        }
    }

    /// A number in four bytes, the lowest first.
    pub fn four(&mut self) -> Result<u32, ReadFault>
        ensures { Gives (λ number. number) result (number_at w32 self.old) self.new }
    {
        if self.rest.len() < 4 {
            return Err(ReadFault::Text(TextFault::Short));
        }
        let (front, rest) = self.rest.split_at(4);
        self.rest = rest;
        Ok(u32::from_le_bytes([front[0], front[1], front[2], front[3]]))
    }

    /// A number in eight bytes, the lowest first.
    pub fn eight(&mut self) -> Result<u64, ReadFault>
        ensures { Gives (λ number. number) result (number_at w64 self.old) self.new }
    {
        if self.rest.len() < 8 {
            return Err(ReadFault::Text(TextFault::Short));
        }
        let (front, rest) = self.rest.split_at(8);
        self.rest = rest;
        Ok(u64::from_le_bytes([
            front[0], front[1], front[2], front[3], front[4], front[5], front[6], front[7],
        ]))
    }

    /// A string: its length in four bytes, and its bytes, which aren't copied.
    #[tactic(auto, unfolding(crate::specs::Reading::string_at))]
    pub fn string(&mut self) -> Result<&'a [u8], ReadFault>
        ensures { Gives (λ bytes. bytes.now) result (string_at self.old) self.new }
    {
        let len = self.four()?;
        self.take(len as usize)
    }

    /// Whether the text ends here: [`TextFault::Trailing`] where bytes are left.
    pub fn end(&self) -> Result<(), ReadFault>
        ensures { GivesAll (λ nothing. nothing) result (end_of self.now) }
    {
        match self.rest {
            [] => Ok(()),
            _ => Err(ReadFault::Text(TextFault::Trailing)),
        }
    }
}
