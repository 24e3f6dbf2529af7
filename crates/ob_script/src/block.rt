ghost use Rattle.std.specs.Prelude.{[], ◌∷◌, ◌++◌, ◌≡◌, ◌+◌, ◌^◌, ◌<◌, ◌≤◌, IsTrue, codes, decimal, false, length};
ghost use Rattle.std.specs.Fmt.{digit_glyph, digits};
ghost use Rattle.ob_name.specs.Refs.{namespace_of};
ghost use Rattle.ob_script.specs.Printed.{printed, printed_answer, printed_card, printed_descr, printed_fault};
ghost use Rattle.ob_script.specs.Printed.{printed_id, printed_pin, printed_reclaim, printed_reply, printed_space};
ghost use Rattle.ob_script.specs.Printed.{printed_unpin};

use crate::answer::Answer;
use arrayvec::ArrayVec;
use itoa::Buffer;
use ob_manager::{Card, Reply};
use ob_name::Space;
use ob_rights::{Kind, code_of};
use pin_core::{Descr, Id};
use pin_words::{PinFault, Reclaim};
use std::marker::Model;

/// The size of a block, in bytes.
const BLOCK: usize = 65536;

/// The longest answer, in bytes.
const ANSWER_MOST: usize = 512;

/// The block in which answers are gathered, printed one behind another. A clause sees it as its bytes.
#[derive(Drop)]
pub struct Block {
    bytes: ArrayVec<u8, 65536>,
}

impl Model for Block {
    ghost use Rattle.std.specs.Prelude.{ℕ, List};

    ghost Value = { List ℕ };

    ghost view = { λ block. block.bytes.items };
}

impl Block {
    /// An empty block.
    pub fn new() -> Block
        ensures { result ≡ [] }
    {
        Block {
            bytes: ArrayVec::new(),
        }
    }

    /// The bytes.
    pub fn as_slice(&self) -> &[u8]
        ensures { result.now ≡ self.now }
    {
        self.bytes.as_slice()
    }

    /// Empties the block.
    pub fn clear(&mut self)
        ensures { self.new ≡ [] }
    {
        self.bytes.clear();
    }

    /// Whether there is room for the longest answer.
    pub fn has_room(&self) -> bool
        ensures { IsTrue result → length self.now + ANSWER_MOST ≤ BLOCK }
    {
        self.bytes.remaining_capacity() >= ANSWER_MOST
    }

    /// Prints the reply to a call, as one line.
    #[inline(always)]
    pub fn add_reply(&mut self, reply: &Reply)
        requires { length self.old + ANSWER_MOST ≤ BLOCK }
        ensures { self.new ≡ self.old ++ printed reply.now }
    {
        self.reply(reply);
        self.text(b"\n");
    }

    /// Prints an answer, as one line.
    pub fn add(&mut self, answer: &Answer<'_>)
        requires { length self.old + ANSWER_MOST ≤ BLOCK }
        ensures { self.new ≡ self.old ++ printed_answer answer.now }
    {
        match answer {
            Answer::Replied(reply) => return self.add_reply(reply),
            Answer::BadLine(number) => {
                self.text(b"bad line ");
                self.wide(*number);
            }
            Answer::NameCount(count) => {
                self.text(b"dir ");
                self.wide(*count as u128);
            }
            Answer::Named(name, id) => {
                self.space(name.space);
                self.id(*id);
                self.text(b" ");
                self.text(name.base);
            }
            Answer::Pinned(id, answer) => self.pin(*id, *answer),
            Answer::Unpinned(id, done) => self.unpin(*id, *done),
            Answer::Shown(card) => self.card(*card),
            Answer::NoWait => self.text(b"none"),
            Answer::Lane(number) => {
                self.text(b"lane ");
                self.number(u64::from(*number));
            }
            Answer::Journaled(count) => {
                self.text(b"closed ");
                self.wide(*count as u128);
            }
        }
        self.text(b"\n");
    }

    #[inline(always)]
    fn reply(&mut self, reply: &Reply)
        requires { length self.old + ANSWER_MOST ≤ BLOCK }
        ensures value { self.new ≡ self.old ++ printed_reply reply.now }
        ensures len { length self.new ≤ length self.old + 200 }
    {
        match reply {
            Reply::Spawned { process, thread } => {
                self.text(b"p");
                self.number(u64::from(*process));
                self.text(b" t");
                self.number(u64::from(*thread));
            }
            Reply::Started { thread } => {
                self.text(b"t");
                self.number(u64::from(*thread));
            }
            Reply::Made { handle, id } => self.handle(*handle, b" new ", *id),
            Reply::Exists { handle, id } => self.handle(*handle, b" exists ", *id),
            Reply::Opened { handle, id } => self.handle(*handle, b" opened ", *id),
            Reply::Duplicated { handle, id } => self.handle(*handle, b" dup ", *id),
            Reply::Closed => self.text(b"closed"),
            Reply::Done => self.text(b"done"),
            Reply::Flags { bits } => {
                self.text(b"flags ");
                self.number(u64::from(*bits));
            }
            Reply::Previous { count } => {
                self.text(b"previous ");
                self.number(u64::from(*count));
            }
            Reply::Code { code } => {
                self.text(b"code ");
                self.number(u64::from(*code));
            }
            Reply::Pending { wait } => {
                self.text(b"pending w");
                self.number(u64::from(*wait));
            }
            Reply::Signaled { wait } => {
                self.text(b"signaled w");
                self.number(u64::from(*wait));
            }
            Reply::Expired { wait } => {
                self.text(b"expired w");
                self.number(u64::from(*wait));
            }
            Reply::Ticked { now } => {
                self.text(b"now ");
                self.number(*now);
            }
            Reply::Ended { thread } => {
                self.text(b"ended t");
                self.number(u64::from(*thread));
            }
            Reply::Exited { process } => {
                self.text(b"exited p");
                self.number(u64::from(*process));
            }
            Reply::Reaped { id, outcome } => {
                self.id(*id);
                self.reclaim(*outcome);
            }
            Reply::CountsAre {
                handles,
                waits,
                hold,
            } => {
                self.text(b"handles ");
                self.number(u64::from(*handles));
                self.text(b" waits ");
                self.number(u64::from(*waits));
                self.text(b" hold ");
                self.number(u64::from(*hold));
            }
            Reply::Refused(fault) => {
                self.text(b"error ");
                self.number(u64::from(code_of(*fault)));
            }
        }
    }

    fn text(&mut self, text: &[u8])
        requires { length self.old + length text.now ≤ BLOCK }
        ensures value { self.new ≡ self.old ++ text.now }
        ensures len { length self.new ≡ length self.old + length text.now }
    {
        let _ = self.bytes.try_extend_from_slice(text);
    }

    fn number(&mut self, number: u64)
        requires { length self.old + 40 ≤ BLOCK }
        ensures value { self.new ≡ self.old ++ decimal number }
        ensures len { length self.new ≤ length self.old + 40 }
    {
        if number < 1000 {
            self.short(number as u32);
        } else {
            let mut digits = Buffer::new();
            self.text(digits.format(number).as_bytes());
        }
    }

    // Most numbers of a script are this short.
    #[tactic(auto, using(crate::proofs::Printing::one_more_digit))]
    fn short(&mut self, number: u32)
        requires short { number < 1000 }
        requires room { length self.old + 3 ≤ BLOCK }
        ensures value { self.new ≡ self.old ++ decimal number }
        ensures len { length self.new ≤ length self.old + 3 }
    {
        if number < 100 {
            return self.pair(number);
        }
        self.pair(number / 10);
        self.digit((number % 10) as u8);
    }

    #[tactic(auto, using(crate::proofs::Printing::one_more_digit))]
    fn pair(&mut self, number: u32)
        requires short { number < 100 }
        requires room { length self.old + 2 ≤ BLOCK }
        ensures value { self.new ≡ self.old ++ decimal number }
        ensures len { length self.new ≤ length self.old + 2 }
    {
        if number < 10 {
            return self.digit(number as u8);
        }
        self.digit((number / 10) as u8);
        self.digit((number % 10) as u8);
    }

    #[tactic(auto, using(std::proofs::lemmas::Fmt::decimal_digit))]
    fn digit(&mut self, digit: u8)
        requires digit { digit < 10 }
        requires room { length self.old < BLOCK }
        ensures value { self.new ≡ self.old ++ decimal digit }
        ensures len { length self.new ≡ length self.old + 1 }
    {
        let _ = self.bytes.try_push(b'0' + digit);
    }

    // A number that grows with the input.
    fn wide(&mut self, number: u128)
        requires { length self.old + 40 ≤ BLOCK }
        ensures value { self.new ≡ self.old ++ decimal number }
        ensures len { length self.new ≤ length self.old + 40 }
    {
        let mut digits = Buffer::new();
        self.text(digits.format(number).as_bytes());
    }

    fn id(&mut self, id: Id)
        requires { length self.old + 100 ≤ BLOCK }
        ensures value { self.new ≡ self.old ++ printed_id id }
        ensures len { length self.new ≤ length self.old + 82 }
    {
        self.text(b"s");
        self.number(u64::from(id.slot));
        self.text(b".");
        self.number(u64::from(id.generation));
    }

    fn handle(&mut self, handle: u32, how: &[u8], id: Id)
        requires room { length self.old + 200 ≤ BLOCK }
        requires how { length how.now ≤ 10 }
        ensures value { self.new ≡ self.old ++ (codes "h" ++ decimal handle ++ how.now ++ printed_id id) }
        ensures len { length self.new ≤ length self.old + 140 }
    {
        self.text(b"h");
        self.number(u64::from(handle));
        self.text(how);
        self.id(id);
    }

    fn reclaim(&mut self, outcome: Reclaim)
        requires { length self.old + 100 ≤ BLOCK }
        ensures value { self.new ≡ self.old ++ printed_reclaim outcome }
        ensures len { length self.new ≤ length self.old + 50 }
    {
        match outcome {
            Reclaim::Freed => self.text(b" freed"),
            Reclaim::Retired => self.text(b" retired"),
            Reclaim::Held { pins } => {
                self.text(b" held ");
                self.number(u64::from(pins));
            }
        }
    }

    fn pin(&mut self, id: Id, answer: Result<Descr, PinFault>)
        requires { length self.old + 300 ≤ BLOCK }
        ensures value { self.new ≡ self.old ++ printed_pin id answer }
        ensures len { length self.new ≤ length self.old + 200 }
    {
        match answer {
            Ok(descr) => {
                self.text(b"pinned ");
                self.id(id);
                self.text(b" ");
                self.descr(descr);
            }
            Err(fault) => self.fault(fault),
        }
    }

    fn fault(&mut self, fault: PinFault)
        requires { length self.old + 100 ≤ BLOCK }
        ensures value { self.new ≡ self.old ++ printed_fault fault }
        ensures len { length self.new ≤ length self.old + 10 }
    {
        match fault {
            PinFault::NoSuchSlot => self.text(b"no slot"),
            PinFault::Unborn => self.text(b"unborn"),
            PinFault::Stale => self.text(b"stale"),
            PinFault::Busy { seen: _ } => self.text(b"busy"),
            PinFault::PinsFull => self.text(b"pins full"),
            PinFault::HeldFull => self.text(b"held full"),
        }
    }

    fn unpin(&mut self, id: Id, done: bool)
        requires { length self.old + 300 ≤ BLOCK }
        ensures value { self.new ≡ self.old ++ printed_unpin id done }
        ensures len { length self.new ≤ length self.old + 200 }
    {
        if done {
            self.text(b"unpinned ");
            self.id(id);
        } else {
            self.text(b"not held");
        }
    }

    fn card(&mut self, card: Option<Card>)
        requires { length self.old + 300 ≤ BLOCK }
        ensures value { self.new ≡ self.old ++ printed_card card }
        ensures len { length self.new ≤ length self.old + 200 }
    {
        match card {
            Some(card) => {
                self.text(b"card ");
                self.id(card.id);
                self.text(b" ");
                self.descr(card.descr);
                self.text(b" grant 0x");
                self.hexadecimal(card.grant.0, 8);
            }
            None => self.text(b"not held"),
        }
    }

    fn descr(&mut self, descr: Descr)
        requires { length self.old + 100 ≤ BLOCK }
        ensures value { self.new ≡ self.old ++ printed_descr descr }
        ensures len { length self.new ≤ length self.old + 60 }
    {
        match descr.kind {
            Kind::Event | Kind::Host(_) if descr.manual => self.text(b"event manual"),
            // (as which a descriptor tells an object of the host's own)
            Kind::Event | Kind::Host(_) => self.text(b"event auto"),
            Kind::Mutex => self.text(b"mutex"),
            Kind::Semaphore => {
                self.text(b"semaphore ");
                self.number(u64::from(descr.max));
            }
            Kind::Timer if descr.manual => self.text(b"timer manual"),
            Kind::Timer => self.text(b"timer auto"),
        }
    }

    fn space(&mut self, space: Space)
        requires { length self.old + 100 ≤ BLOCK }
        ensures value { self.new ≡ self.old ++ printed_space (namespace_of space) }
        ensures len { length self.new ≤ length self.old + 60 }
    {
        match space {
            Space::Global => self.text(b"global "),
            Space::Session(session) => {
                self.text(b"session ");
                self.number(u64::from(session.number));
                self.text(b" ");
            }
        }
    }

    // A number in lower-case hexadecimal, which has at most so many digits.
    #[tactic(auto, using(std::proofs::lemmas::Fmt::hex_one_digit, crate::proofs::Hexadecimal::fits))]
    fn hexadecimal(&mut self, number: u32, most: u32)
        requires fits { number < 16 ^ most }
        requires above_zero { 0 < most }
        requires room { length self.old + most ≤ BLOCK }
        ensures value { self.new ≡ self.old ++ digits 16 false number }
        ensures len { length self.new ≤ length self.old + most }
    {
        if number < 16 {
            return self.glyph(number);
        }
        self.hexadecimal(number / 16, most - 1);
        self.glyph(number % 16);
    }

    fn glyph(&mut self, digit: u32)
        requires digit { digit < 16 }
        requires room { length self.old < BLOCK }
        ensures value { self.new ≡ self.old ++ digit_glyph false digit ∷ [] }
        ensures len { length self.new ≡ length self.old + 1 }
    {
        let glyph = if digit < 10 {
            b'0' + digit as u8
        } else {
            b'a' + (digit as u8 - 10)
        };
        let _ = self.bytes.try_push(glyph);
    }
}
