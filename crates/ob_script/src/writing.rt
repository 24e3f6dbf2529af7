ghost use Rattle.std.specs.Prelude.{◌≡◌, ◌++◌, ◌∷◌, [], codes, ◌==◌, decimal, map, not, IfOk, OnOk};
ghost use Rattle.std.specs.Prelude.{vec_items, List, ℕ};
ghost use Rattle.std.specs.Option.{option_map};
ghost use Rattle.std.specs.Fmt.{signed_decimal};
ghost use Rattle.std.specs.List.{flat_map, list_all};
ghost use Rattle.ob_manager.specs.Calls.{with_parts};
ghost use Rattle.ob_manager.specs.declared.call.CallOf.TheVariants as calls;
ghost use Rattle.ob_manager.specs.Makings.{making_of, Making};
ghost use Rattle.ob_script.specs.Fitting.{Fits};
ghost use Rattle.ob_script.specs.Writing.{access_word, behind_spaces, can_be_said, either_word, ended, handle_words};
ghost use Rattle.ob_script.specs.Writing.{id_word, is_line, kind_word};
ghost use Rattle.ob_script.specs.Writing.{label, line_of, make_words, mask_word, mask_words, mode_word, name_words};
ghost use Rattle.ob_script.specs.Writing.{said, target_word, text_words, timeout_word, word_if, words_for};

use crate::fitting::fits;
use crate::grammar::is_too_long;
use itoa::Buffer;
use ob_manager::{AsMake, CallOf, Make, Mode, Timeout};
use ob_rights::{Kind, Rights};
use ob_waits::LAST_MOMENT;
use pin_core::Id;
use std::alloc::{AllocError, Global};
use std::convert::AsSlice;
use std::marker::Model;

/// A line that is being written, word by word. A contract sees its text.
#[derive(Drop)]
struct Line {
    bytes: Vec<u8>,
}

impl Model for Line {
    ghost use Rattle.std.specs.Prelude.{ℕ, List};

    ghost Value = { List ℕ };

    ghost view = { λ line. line.bytes.items };
}

fn mode_of(mode: Mode) -> &'static [u8]
    ensures { result.now ≡ mode_word mode }
{
    match mode {
        Mode::Any => b"any",
        Mode::All => b"all",
    }
}

impl Line {
    fn text(&mut self, text: &[u8]) -> Result<(), AllocError>
        ensures { OnOk result (self.new ≡ self.old ++ text.now) }
    {
        self.bytes.extend_from_slice(text)
    }

    fn byte(&mut self, byte: u8) -> Result<(), AllocError>
        ensures { OnOk result (self.new ≡ self.old ++ byte ∷ []) }
    {
        self.bytes.push(byte)?;
        Ok(())
    }

    fn digits(&mut self, number: u64) -> Result<(), AllocError>
        ensures { OnOk result (self.new ≡ self.old ++ decimal number) }
    {
        let mut digits = Buffer::new();
        self.text(digits.format(number).as_bytes())
    }

    fn word(&mut self, word: &[u8]) -> Result<(), AllocError>
        ensures { OnOk result (self.new ≡ self.old ++ 32 ∷ word.now) }
    {
        self.byte(b' ')?;
        self.text(word)
    }

    fn label(&mut self, letter: u8, number: u32) -> Result<(), AllocError>
        ensures { OnOk result (self.new ≡ self.old ++ 32 ∷ label letter number) }
    {
        self.byte(b' ')?;
        self.byte(letter)?;
        self.digits(u64::from(number))
    }

    fn number(&mut self, number: u64) -> Result<(), AllocError>
        ensures { OnOk result (self.new ≡ self.old ++ 32 ∷ decimal number) }
    {
        self.byte(b' ')?;
        self.digits(number)
    }

    fn signed(&mut self, number: i64) -> Result<(), AllocError>
        ensures { OnOk result (self.new ≡ self.old ++ 32 ∷ signed_decimal number) }
    {
        self.byte(b' ')?;
        let mut digits = Buffer::new();
        self.text(digits.format(number).as_bytes())
    }

    fn id(&mut self, id: Id) -> Result<(), AllocError>
        ensures { OnOk result (self.new ≡ self.old ++ 32 ∷ id_word id) }
    {
        self.label(b's', id.slot)?;
        self.byte(b'.')?;
        self.digits(u64::from(id.generation))
    }

    fn mask(&mut self, alloc: Global, mask: Rights) -> Result<(), AllocError>
        ensures { OnOk result (self.new ≡ self.old ++ 32 ∷ mask_word mask) }
    {
        let digits = format!(in alloc; "{:x}", mask.0)?;
        self.text(b" 0x")?;
        self.text(digits.as_bytes())
    }

    fn word_if(&mut self, is_so: bool, word: &[u8]) -> Result<(), AllocError>
        ensures { OnOk result (self.new ≡ self.old ++ behind_spaces (word_if is_so word.now)) }
    {
        if is_so {
            return self.word(word);
        }
        Ok(())
    }

    fn masked(
        &mut self,
        alloc: Global,
        keyword: &[u8],
        mask: Option<Rights>,
    ) -> Result<(), AllocError>
        ensures { OnOk result (self.new ≡ self.old ++ behind_spaces (mask_words keyword.now mask)) }
    {
        let Some(mask) = mask else {
            return Ok(());
        };
        self.word(keyword)?;
        self.mask(alloc, mask)
    }

    fn name(&mut self, text: &[u8]) -> Result<(), AllocError>
        ensures { OnOk result (self.new ≡ self.old ++ behind_spaces (text_words text.now)) }
    {
        self.word(b"name")?;
        self.word(text)
    }

    fn named(&mut self, name: Option<&[u8]>) -> Result<(), AllocError>
        ensures { OnOk result (self.new ≡ self.old
            ++ behind_spaces (name_words (option_map (λ text. text.now) name.entry))) }
    {
        match name {
            Some(text) => self.name(text),
            None => Ok(()),
        }
    }

    fn make(&mut self, alloc: Global, make: Make<'_>) -> Result<(), AllocError>
        ensures { OnOk result (self.new ≡ self.old ++ behind_spaces (make_words (making_of make.entry))) }
    {
        self.word_if(make.inherit, b"inherit")?;
        self.masked(alloc, b"access", make.access)?;
        self.masked(alloc, b"grant", make.grant)?;
        self.named(make.name)
    }

    fn timeout(&mut self, timeout: Timeout) -> Result<(), AllocError>
        ensures { OnOk result (self.new ≡ self.old ++ 32 ∷ timeout_word timeout) }
    {
        match timeout {
            Timeout::Zero => self.number(0),
            Timeout::Infinite => self.word(b"inf"),
            Timeout::Millis(millis) => self.number(u64::from(millis)),
            Timeout::Until(due) => {
                self.text(b" @")?;
                let mut digits = Buffer::new();
                self.text(digits.format(due).as_bytes())
            }
        }
    }

    fn target(&mut self, target: Option<u32>) -> Result<(), AllocError>
        ensures { OnOk result (self.new ≡ self.old ++ 32 ∷ target_word target) }
    {
        match target {
            Some(process) => self.label(b'p', process),
            None => self.word(b"-"),
        }
    }

    fn each(&mut self, handles: &[u32]) -> Result<(), AllocError>
        ensures { OnOk result (self.new ≡ self.old ++ flat_map (λ handle. 32 ∷ label 104 handle) handles.now) }
    {
        for handle in handles {
            self.label(b'h', *handle)?;
        }
        Ok(())
    }

    fn handles(&mut self, handles: &[u32]) -> Result<(), AllocError>
        ensures { OnOk result (self.new ≡ self.old ++ behind_spaces (map (label 104) handles.now)) }
    {
        self.each(handles)
    }

    fn child(&mut self, thread: u32, inherit: bool) -> Result<(), AllocError>
        ensures { OnOk result (self.new ≡ self.old ++ said (words_for (calls.Child thread inherit))) }
    {
        self.lone(b"child", b't', thread)?;
        self.either(b"plain", b"inherit", inherit)
    }

    fn event(
        &mut self,
        alloc: Global,
        thread: u32,
        make: Make<'_>,
        manual: bool,
        set: bool,
    ) -> Result<(), AllocError>
        ensures { OnOk result (self.new
            ≡ self.old ++ said (words_for (calls.MakeEvent thread (making_of make.entry) manual set))) }
    {
        self.lone(b"event", b't', thread)?;
        self.either(b"auto", b"manual", manual)?;
        self.either(b"clear", b"set", set)?;
        self.make(alloc, make)
    }

    fn mutex(
        &mut self,
        alloc: Global,
        thread: u32,
        make: Make<'_>,
        owned: bool,
    ) -> Result<(), AllocError>
        ensures { OnOk result (self.new ≡ self.old
            ++ said (words_for (calls.MakeMutex thread (making_of make.entry) owned))) }
    {
        self.lone(b"mutex", b't', thread)?;
        self.either(b"free", b"owned", owned)?;
        self.make(alloc, make)
    }

    /// A verb with a thread and two numbers that may be negative.
    fn counts(
        &mut self,
        verb: &[u8],
        thread: u32,
        first: i32,
        second: i32,
    ) -> Result<(), AllocError>
        ensures { OnOk result (self.new ≡ self.old
            ++ said (verb.now ∷ label 116 thread ∷ signed_decimal first ∷ signed_decimal second ∷ [])) }
    {
        self.lone(verb, b't', thread)?;
        self.signed(i64::from(first))?;
        self.signed(i64::from(second))
    }

    fn semaphore(
        &mut self,
        alloc: Global,
        thread: u32,
        make: Make<'_>,
        initial: i32,
        max: i32,
    ) -> Result<(), AllocError>
        ensures { OnOk result (self.new
            ≡ self.old ++ said (words_for (calls.MakeSemaphore thread (making_of make.entry) initial max))) }
    {
        self.counts(b"semaphore", thread, initial, max)?;
        self.make(alloc, make)
    }

    fn timer(
        &mut self,
        alloc: Global,
        thread: u32,
        make: Make<'_>,
        manual: bool,
    ) -> Result<(), AllocError>
        ensures { OnOk result (self.new ≡ self.old
            ++ said (words_for (calls.MakeTimer thread (making_of make.entry) manual))) }
    {
        self.lone(b"timer", b't', thread)?;
        self.either(b"auto", b"manual", manual)?;
        self.make(alloc, make)
    }

    fn host(
        &mut self,
        alloc: Global,
        thread: u32,
        make: Make<'_>,
        object_type: u8,
        manual: bool,
        signaled: bool,
    ) -> Result<(), AllocError>
        ensures { OnOk result (self.new ≡ self.old
            ++ said (words_for (calls.MakeHost thread (making_of make.entry) object_type manual signaled))) }
    {
        self.lone(b"host", b't', thread)?;
        self.label(b'k', u32::from(object_type))?;
        self.either(b"auto", b"manual", manual)?;
        self.either(b"clear", b"set", signaled)?;
        self.make(alloc, make)
    }

    fn open(
        &mut self,
        alloc: Global,
        thread: u32,
        kind: Kind,
        mask: Rights,
        inherit: bool,
        text: &[u8],
    ) -> Result<(), AllocError>
        ensures { OnOk result (self.new
            ≡ self.old ++ said (words_for (calls.OpenNamed thread kind mask inherit text.now))) }
    {
        self.lone(b"open", b't', thread)?;
        self.kind(kind)?;
        self.mask(alloc, mask)?;
        self.word_if(inherit, b"inherit")?;
        self.name(text)
    }

    fn kind(&mut self, kind: Kind) -> Result<(), AllocError>
        ensures { OnOk result (self.new ≡ self.old ++ 32 ∷ kind_word kind) }
    {
        match kind {
            Kind::Event => self.word(b"event"),
            Kind::Mutex => self.word(b"mutex"),
            Kind::Semaphore => self.word(b"semaphore"),
            Kind::Timer => self.word(b"timer"),
            Kind::Host(object_type) => self.label(b'k', u32::from(object_type)),
        }
    }

    fn access(&mut self, alloc: Global, mask: Rights, options: u32) -> Result<(), AllocError>
        ensures { OnOk result (self.new ≡ self.old ++ 32 ∷ access_word options mask) }
    {
        if options & 2 == 2 {
            return self.word(b"same");
        }
        self.mask(alloc, mask)
    }

    fn dup(
        &mut self,
        alloc: Global,
        thread: u32,
        source: u32,
        handle: u32,
        target: Option<u32>,
        mask: Rights,
        inherit: bool,
        options: u32,
    ) -> Result<(), AllocError>
        ensures { OnOk result (self.new
            ≡ self.old ++ said (words_for (calls.Duplicate thread source handle target mask inherit options))) }
    {
        self.lone(b"dup", b't', thread)?;
        self.label(b'p', source)?;
        self.label(b'h', handle)?;
        self.target(target)?;
        self.access(alloc, mask, options)?;
        self.word_if(inherit, b"inherit")?;
        self.word_if(options & 1 == 1, b"close")
    }

    /// A verb with a thread and a handle.
    fn handle(&mut self, verb: &[u8], thread: u32, handle: u32) -> Result<(), AllocError>
        ensures { OnOk result (self.new ≡ self.old ++ said (handle_words verb.now thread handle [])) }
    {
        self.lone(verb, b't', thread)?;
        self.label(b'h', handle)
    }

    /// A verb with a thread, a handle and a number that may be negative.
    fn counted(
        &mut self,
        verb: &[u8],
        thread: u32,
        handle: u32,
        number: i64,
    ) -> Result<(), AllocError>
        ensures { OnOk result (self.new ≡ self.old
            ++ said (handle_words verb.now thread handle (signed_decimal number ∷ []))) }
    {
        self.handle(verb, thread, handle)?;
        self.signed(number)
    }

    fn flags(&mut self, thread: u32, handle: u32, mask: u32, flags: u32) -> Result<(), AllocError>
        ensures { OnOk result (self.new ≡ self.old ++ said (words_for (calls.SetFlags thread handle mask flags))) }
    {
        self.handle(b"setflags", thread, handle)?;
        self.number(u64::from(mask))?;
        self.number(u64::from(flags))
    }

    fn wait(
        &mut self,
        thread: u32,
        mode: Mode,
        timeout: Timeout,
        handles: &[u32],
    ) -> Result<(), AllocError>
        ensures { OnOk result (self.new ≡ self.old
            ++ said (words_for (calls.WaitFor thread mode timeout handles.now))) }
    {
        self.lone(b"wait", b't', thread)?;
        self.word(mode_of(mode))?;
        self.timeout(timeout)?;
        self.handles(handles)
    }

    fn signal_and_wait(
        &mut self,
        thread: u32,
        signal: u32,
        timeout: Timeout,
        handle: u32,
    ) -> Result<(), AllocError>
        ensures { OnOk result (self.new ≡ self.old
            ++ said (words_for (calls.SignalAndWait thread signal timeout handle))) }
    {
        self.handle(b"signalwait", thread, signal)?;
        self.timeout(timeout)?;
        self.label(b'h', handle)
    }

    fn set_period(
        &mut self,
        thread: u32,
        handle: u32,
        due: i64,
        period: i32,
    ) -> Result<(), AllocError>
        ensures { OnOk result (self.new ≡ self.old
            ++ said (words_for (calls.SetPeriodicTimer thread handle due period))) }
    {
        self.counted(b"setperiod", thread, handle, due)?;
        self.signed(i64::from(period))
    }

    fn sleep(&mut self, thread: u32, timeout: Timeout) -> Result<(), AllocError>
        ensures { OnOk result (self.new ≡ self.old ++ said (words_for (calls.Sleep thread timeout))) }
    {
        self.lone(b"sleep", b't', thread)?;
        self.timeout(timeout)
    }

    /// A verb, and a number behind a letter.
    fn lone(&mut self, verb: &[u8], letter: u8, number: u32) -> Result<(), AllocError>
        ensures { OnOk result (self.new ≡ self.old ++ (verb.now ++ 32 ∷ label letter number)) }
    {
        self.text(verb)?;
        self.label(letter, number)
    }

    /// A verb, and a number.
    fn plain(&mut self, verb: &[u8], number: u64) -> Result<(), AllocError>
        ensures { OnOk result (self.new ≡ self.old ++ (verb.now ++ 32 ∷ decimal number)) }
    {
        self.text(verb)?;
        self.number(number)
    }

    fn end_thread(&mut self, thread: u32) -> Result<(), AllocError>
        ensures { OnOk result (self.new ≡ self.old ++ said (words_for (calls.EndThread thread))) }
    {
        self.lone(b"endthread", b't', thread)
    }

    fn count(&mut self, id: Id) -> Result<(), AllocError>
        ensures { OnOk result (self.new ≡ self.old ++ said (words_for (calls.Counts id))) }
    {
        self.text(b"count")?;
        self.id(id)
    }

    fn signal(&mut self, id: Id, signaled: bool) -> Result<(), AllocError>
        ensures { OnOk result (self.new ≡ self.old ++ said (words_for (calls.SignalHost id signaled))) }
    {
        self.text(b"signal")?;
        self.id(id)?;
        self.either(b"clear", b"set", signaled)
    }

    fn either(&mut self, first: &[u8], second: &[u8], is_so: bool) -> Result<(), AllocError>
        ensures { OnOk result (self.new ≡ self.old ++ 32 ∷ either_word first.now second.now is_so) }
    {
        if is_so {
            return self.word(second);
        }
        self.word(first)
    }
}

/// Whether a line can say what a call asks for.
fn can_be_said<M, T, H>(call: &CallOf<M, T, H>) -> bool
    ensures { (m : M → Making) (t : T → List ℕ) (h : H → List ℕ) → result ≡ can_be_said (with_parts m t h call.now) }
{
    match call {
        CallOf::Duplicate { options, .. } => *options < 4,
        CallOf::Tick { now } => *now <= LAST_MOMENT,
        _ => true,
    }
}

fn has_no_feed(text: &[u8]) -> bool
    ensures { result ≡ list_all (λ byte. not (byte == 10)) text.now }
{
    text.iter().all(|byte| *byte != b'\n')
}

/// Whether a text is that of a line.
fn is_line(text: &[u8]) -> bool
    ensures { result ≡ is_line text.now }
{
    !is_too_long(text) && has_no_feed(text)
}

impl Line {
    fn new(alloc: Global) -> Line
        ensures { result ≡ [] }
    {
        Line {
            bytes: Vec::new(alloc),
        }
    }

    /// Writes the words of a call.
    fn call<M: AsMake, T: AsSlice<u8>, H: AsSlice<u32>>(
        &mut self,
        alloc: Global,
        call: &CallOf<M, T, H>,
    ) -> Result<(), AllocError>
        ensures { OnOk result (self.new
            ≡ self.old ++ said (words_for (with_parts M.making T.items H.items call.now))) }
    {
        match call {
            CallOf::Spawn { session } => self.plain(b"spawn", u64::from(*session)),
            CallOf::Child { thread, inherit } => self.child(*thread, *inherit),
            CallOf::StartThread { process } => self.lone(b"thread", b'p', *process),
            CallOf::MakeEvent {
                thread,
                make,
                manual,
                set,
            } => { self.event(alloc, *thread, make.as_make(), *manual, *set) }
            CallOf::MakeMutex {
                thread,
                make,
                owned,
            } => self.mutex(alloc, *thread, make.as_make(), *owned),
            CallOf::MakeSemaphore {
                thread,
                make,
                initial,
                max,
            } => { self.semaphore(alloc, *thread, make.as_make(), *initial, *max) }
            CallOf::MakeTimer {
                thread,
                make,
                manual,
            } => self.timer(alloc, *thread, make.as_make(), *manual),
            CallOf::MakeHost {
                thread,
                make,
                object_type,
                manual,
                signaled,
            } => {
                self.host(
                    alloc,
                    *thread,
                    make.as_make(),
                    *object_type,
                    *manual,
                    *signaled,
                )
            }
            CallOf::OpenNamed {
                thread,
                kind,
                mask,
                inherit,
                text,
            } => { self.open(alloc, *thread, *kind, *mask, *inherit, text.as_slice()) }
            CallOf::Duplicate {
                thread,
                source,
                handle,
                target,
                mask,
                inherit,
                options,
            } => {
                self.dup(
                    alloc, *thread, *source, *handle, *target, *mask, *inherit, *options,
                )
            }
            CallOf::CloseHandle { thread, handle } => self.handle(b"close", *thread, *handle),
            CallOf::GetFlags { thread, handle } => self.handle(b"flags", *thread, *handle),
            CallOf::SetFlags {
                thread,
                handle,
                mask,
                flags,
            } => self.flags(*thread, *handle, *mask, *flags),
            CallOf::SetEvent { thread, handle } => self.handle(b"set", *thread, *handle),
            CallOf::ResetEvent { thread, handle } => self.handle(b"reset", *thread, *handle),
            CallOf::PulseEvent { thread, handle } => self.handle(b"pulse", *thread, *handle),
            CallOf::ReleaseSemaphore {
                thread,
                handle,
                count,
            } => { self.counted(b"release", *thread, *handle, i64::from(*count)) }
            CallOf::ReleaseMutex { thread, handle } => self.handle(b"unlock", *thread, *handle),
            CallOf::SignalHost { id, signaled } => self.signal(*id, *signaled),
            CallOf::SetTimer {
                thread,
                handle,
                due,
            } => self.counted(b"settimer", *thread, *handle, *due),
            CallOf::SetPeriodicTimer {
                thread,
                handle,
                due,
                period,
            } => { self.set_period(*thread, *handle, *due, *period) }
            CallOf::CancelTimer { thread, handle } => self.handle(b"cancel", *thread, *handle),
            CallOf::Tick { now } => self.plain(b"tick", *now),
            CallOf::WaitFor {
                thread,
                mode,
                timeout,
                handles,
            } => { self.wait(*thread, *mode, *timeout, handles.as_slice()) }
            CallOf::SignalAndWait {
                thread,
                signal,
                timeout,
                handle,
            } => { self.signal_and_wait(*thread, *signal, *timeout, *handle) }
            CallOf::Sleep { thread, timeout } => self.sleep(*thread, *timeout),
            CallOf::WaitResult { wait } => self.lone(b"result", b'w', *wait),
            CallOf::Expire { wait } => self.lone(b"expire", b'w', *wait),
            CallOf::Alert { wait } => self.lone(b"alert", b'w', *wait),
            CallOf::EndThread { thread } => self.end_thread(*thread),
            CallOf::Exit { process } => self.lone(b"exit", b'p', *process),
            CallOf::Reap { slot } => self.lone(b"reap", b's', *slot),
            CallOf::Counts { id } => self.count(*id),
        }
    }

    /// Doubles a carriage return at the end of the text, since whoever reads a line drops one.
    fn end(&mut self) -> Result<(), AllocError>
        ensures { OnOk result (self.new ≡ ended self.old) }
    {
        match self.bytes.as_slice() {
            [.., b'\r'] => self.byte(b'\r'),
            _ => Ok(()),
        }
    }
}

/// The line of a script that asks for a call, without its line feed; none where no line does: for a name with a line
/// feed, for what takes a line of more than 4,096 bytes, for a duplicate with options beyond 3, and for a tick past the
/// last moment. Each of these calls is refused by every manager, since names have 260 bytes and waits 64 handles at
/// most.
///
/// What the grammar reads in the line is this call, but that a wait of no time is one of 0 milliseconds, and that a
/// duplicate with the rights of its source asks for no mask, which it has no use for. The refusal is want of memory.
#[tactic(auto, using(crate::proofs::ReadBack::gives_none, crate::proofs::ReadBack::gives_line))]
pub fn line_of<M: AsMake, T: AsSlice<u8>, H: AsSlice<u32>>(
    alloc: Global,
    call: &CallOf<M, T, H>,
) -> Result<Option<Vec<u8>>, AllocError>
    ensures line { IfOk result (λ line. option_map vec_items line
        ≡ line_of (with_parts M.making T.items H.items call.now)) }
    ensures fits { Fits (with_parts M.making T.items H.items call.now) }
{
    fits(call);
    if !can_be_said(call) {
        return Ok(None);
    }
    let mut line = Line::new(alloc);
    line.call(alloc, call)?;
    if !is_line(line.bytes.as_slice()) {
        return Ok(None);
    }
    line.end()?;
    Ok(Some(line.bytes))
}
