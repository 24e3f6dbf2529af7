// A wait as bytes, and behind its number.
ghost use Rattle.ob_waits.specs.Spelling.{IdsFit, NumberedFits, StateFits, WaitFits, ids_at, ids_text, numbered_at};
ghost use Rattle.ob_waits.specs.Spelling.{numbered_text, state_at, state_text, wait_at, wait_text};
ghost use Rattle.ob_waits.specs.SpellingLaws.{ids_codec, numbered_codec, state_codec, wait_codec};

use crate::codes::MAXIMUM_WAIT_OBJECTS;
use crate::ids::Ids;
use crate::numbered_wait::NumberedWait;
use crate::wait::{Mode, State, Wait};
use ob_codec::{Cursor, ReadFault, Spelled, TextFault, read_list, write_list};
use pin_core::Id;
use std::alloc::{AllocError, Global};

impl Spelled for Ids {
    ghost spell = { ids_text };

    ghost read_at = { ids_at };

    ghost Fits = { IdsFit };

    fn write(&self, out: &mut Vec<u8>) -> Result<(), AllocError> {
        write_list(out, self.as_slice())
    }

    fn read(alloc: Global, from: &mut Cursor<'_>) -> Result<Ids, ReadFault> {
        let ids = read_list::<Id>(alloc, from, MAXIMUM_WAIT_OBJECTS as u32)?;
        Ok(Ids::new(alloc, ids.as_slice())?)
    }

    ghost codec = { ids_codec };
}

impl Spelled for State {
    ghost spell = { state_text };

    ghost read_at = { state_at };

    ghost Fits = { StateFits };

    fn write(&self, out: &mut Vec<u8>) -> Result<(), AllocError> {
        match self {
            State::Pending(Mode::Any, ids) => {
                out.push(0)?;
                ids.write(out)
            }
            State::Pending(Mode::All, ids) => {
                out.push(1)?;
                ids.write(out)
            }
            State::Answered(code) => {
                out.push(2)?;
                code.write(out)
            }
        }
    }

    #[tactic(auto, unfolding(crate::specs::Spelling::state_in))]
    fn read(alloc: Global, from: &mut Cursor<'_>) -> Result<State, ReadFault> {
        match from.byte()? {
            0 => {
                let ids = Ids::read(alloc, from)?;
                Ok(State::Pending(Mode::Any, ids))
            }
            1 => {
                let ids = Ids::read(alloc, from)?;
                Ok(State::Pending(Mode::All, ids))
            }
            2 => {
                let code = from.four()?;
                Ok(State::Answered(code))
            }
            _ => Err(ReadFault::Text(TextFault::Tag)),
        }
    }

    ghost codec = { state_codec };
}

impl Spelled for Wait {
    ghost spell = { wait_text };

    ghost read_at = { wait_at };

    ghost Fits = { WaitFits };

    fn write(&self, out: &mut Vec<u8>) -> Result<(), AllocError> {
        self.thread.write(out)?;
        self.deadline.write(out)?;
        self.state.write(out)
    }

    fn read(alloc: Global, from: &mut Cursor<'_>) -> Result<Wait, ReadFault> {
        let thread = from.four()?;
        let deadline = Option::<u64>::read(alloc, from)?;
        let state = State::read(alloc, from)?;
        Ok(Wait {
            thread,
            deadline,
            state,
        })
    }

    ghost codec = { wait_codec };
}

impl Spelled for NumberedWait {
    ghost spell = { numbered_text };

    ghost read_at = { numbered_at };

    ghost Fits = { NumberedFits };

    fn write(&self, out: &mut Vec<u8>) -> Result<(), AllocError> {
        self.number.write(out)?;
        self.wait.write(out)
    }

    fn read(alloc: Global, from: &mut Cursor<'_>) -> Result<NumberedWait, ReadFault> {
        let number = from.four()?;
        let wait = Wait::read(alloc, from)?;
        Ok(NumberedWait { number, wait })
    }

    ghost codec = { numbered_codec };
}
