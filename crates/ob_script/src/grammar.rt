ghost use Rattle.std.specs.Prelude.{◌≡◌, ◌≤◌, IfSome, length, nat_lt, take, true};
ghost use Rattle.ob_manager.specs.declared.call.CallOf.TheVariants as calls;
ghost use Rattle.ob_script.specs.Words.{are_handles, handles_in, id_of, labelled, moment_of, number_of};
ghost use Rattle.ob_script.specs.Commands.{IsRead, Pin, ShowCard, Unpin, command_in, shortened};
ghost use Rattle.ob_script.specs.Grammar.{access_of, asked, child_of, closing_of, command_of, dup_of, event_of};
ghost use Rattle.ob_script.specs.Grammar.{handle_of, handled, host_of, lone_of, mode_of, mutex_of, object_of, on_object, open_of};
ghost use Rattle.ob_script.specs.Grammar.{release_of, semaphore_of, setflags_of, setperiod_of, settimer_of, signal_of};
ghost use Rattle.ob_script.specs.Grammar.{signalwait_of};
ghost use Rattle.ob_script.specs.Grammar.{sleep_of, target_of, text_of};
ghost use Rattle.ob_script.specs.Grammar.{timeout_of, timer_of, wait_of};

use crate::command::{Command, Handles, LineCall};
use crate::line::ScriptLine;
use crate::naming::{make_of, name_of};
use crate::numbers::{due_of, either_of, labelled, moment_of, number_of, signed_of};
use crate::rights::{kind_of, mask_of, type_of};
use crate::words::{Words, is};
use ob_manager::{Mode, Timeout};
use ob_rights::Rights;
use pin_core::Id;

/// The value of an option; the function returns [`Command::Bad`] where there is none.
macro_rules! wanted {
    ($value:expr) => {
        match $value {
            Some(value) => value,
            None => return Command::Bad,
        }
    };
}

/// The longest text of a line, in bytes.
const TEXT_MOST: usize = 4096;

/// Whether a text is longer than that of a line may be.
pub fn is_too_long(text: &[u8]) -> bool
    ensures { result ≡ nat_lt 4096 (length text.now) }
{
    text.len() > TEXT_MOST
}

/// What a line is; with `more` it may be one of those that the option `--more` adds. The handles of a wait are read
/// into `handles`, in place of those that stood there.
//
// What a line of each verb is stands in this one function when it runs: a function of its own would have a copy of the
// words that are left, and each of these would be cleared for every line. Each verb makes its command in one step, with
// no option between: that would be taken apart and put together for every line. It stands where it is called, so that
// no command is made where its parts are enough: who reads lines calls it in one place.
#[inline(always)]
#[tactic(auto, using(crate::proofs::Verbs::lone_is_bad))]
pub fn command_of<'a>(more: bool, line: &ScriptLine<'a>, handles: &mut Handles) -> Command<'a>
    ensures { command_in handles.new.items result ≡ shortened (command_of more line.now) }
{
    let text = text_of(line.bytes());
    if is_too_long(text) {
        return Command::Bad;
    }
    if text.is_empty() || text[0] == b'#' {
        return Command::Nothing;
    }
    if is(text, b"dir") {
        return Command::ListNames;
    }
    let (verb, words) = wanted!(line.parted());
    if is(verb, b"close") {
        return close_of(words);
    }
    if is(verb, b"set") {
        return set_of(words);
    }
    if is(verb, b"wait") {
        return wait_of(more, words, handles);
    }
    if is(verb, b"count") {
        return count_of(words);
    }
    if is(verb, b"event") {
        return event_of(words);
    }
    if is(verb, b"reset") {
        return reset_of(words);
    }
    if is(verb, b"release") {
        return release_of(words);
    }
    if is(verb, b"unlock") {
        return unlock_of(words);
    }
    if is(verb, b"open") {
        return open_of(more, words);
    }
    if is(verb, b"dup") {
        return dup_of(words);
    }
    if is(verb, b"result") {
        return result_of(words);
    }
    if is(verb, b"mutex") {
        return mutex_of(words);
    }
    if is(verb, b"semaphore") {
        return semaphore_of(words);
    }
    if is(verb, b"reap") {
        return reap_of(words);
    }
    if is(verb, b"thread") {
        return thread_of(words);
    }
    if is(verb, b"spawn") {
        return spawn_of(words);
    }
    if is(verb, b"child") {
        return child_of(words);
    }
    if is(verb, b"expire") {
        return expire_of(words);
    }
    if is(verb, b"endthread") {
        return endthread_of(words);
    }
    if is(verb, b"exit") {
        return exit_of(words);
    }
    if is(verb, b"flags") {
        return flags_of(words);
    }
    if is(verb, b"setflags") {
        return setflags_of(words);
    }
    if is(verb, b"timer") {
        return timer_of(words);
    }
    if is(verb, b"settimer") {
        return settimer_of(words);
    }
    if is(verb, b"cancel") {
        return cancel_of(words);
    }
    if is(verb, b"tick") {
        return tick_of(words);
    }
    if is(verb, b"pin") {
        return pin_of(words);
    }
    if is(verb, b"unpin") {
        return unpin_of(words);
    }
    if is(verb, b"card") {
        return card_of(words);
    }
    if more && is(verb, b"host") {
        return host_of(words);
    }
    if more && is(verb, b"signal") {
        return signal_of(words);
    }
    if more && is(verb, b"pulse") {
        return pulse_of(words);
    }
    if more && is(verb, b"signalwait") {
        return signalwait_of(words);
    }
    if more && is(verb, b"sleep") {
        return sleep_of(words);
    }
    if more && is(verb, b"alert") {
        return alert_of(words);
    }
    if more && is(verb, b"setperiod") {
        return setperiod_of(words);
    }
    Command::Bad
}

/// The text of a line: one carriage return at its end is dropped.
pub fn text_of(line: &[u8]) -> &[u8]
    ensures { result.now ≡ text_of line.now }
{
    match line {
        [text @ .., b'\r'] => text,
        _ => line,
    }
}

#[inline(always)]
fn spawn_of(mut words: Words<'_>) -> Command<'_>
    ensures { IsRead result (asked (lone_of number_of calls.Spawn words.entry)) }
{
    let session = wanted!(words.next());
    wanted!(words.end());
    let session = wanted!(number_of(session));
    Command::Ask(LineCall::Spawn { session })
}

#[inline(always)]
fn child_of(mut words: Words<'_>) -> Command<'_>
    ensures { IsRead result (asked (child_of words.entry)) }
{
    let thread = wanted!(words.labelled(b't'));
    let inherit = wanted!(words.next());
    wanted!(words.end());
    let thread = wanted!(thread);
    let inherit = wanted!(either_of(b"plain", b"inherit", inherit));
    Command::Ask(LineCall::Child { thread, inherit })
}

#[inline(always)]
fn thread_of(mut words: Words<'_>) -> Command<'_>
    ensures { IsRead result (asked (lone_of (labelled 112) calls.StartThread words.entry)) }
{
    let process = wanted!(words.labelled(b'p'));
    wanted!(words.end());
    let process = wanted!(process);
    Command::Ask(LineCall::StartThread { process })
}

#[inline(always)]
fn event_of(mut words: Words<'_>) -> Command<'_>
    ensures { IsRead result (asked (event_of words.entry)) }
{
    let thread = wanted!(words.labelled(b't'));
    let reset = wanted!(words.next());
    let state = wanted!(words.next());
    let thread = wanted!(thread);
    let manual = wanted!(either_of(b"auto", b"manual", reset));
    let set = wanted!(either_of(b"clear", b"set", state));
    let make = wanted!(make_of(words));
    Command::Ask(LineCall::MakeEvent {
        thread,
        make,
        manual,
        set,
    })
}

#[inline(always)]
fn mutex_of(mut words: Words<'_>) -> Command<'_>
    ensures { IsRead result (asked (mutex_of words.entry)) }
{
    let thread = wanted!(words.labelled(b't'));
    let state = wanted!(words.next());
    let thread = wanted!(thread);
    let owned = wanted!(either_of(b"free", b"owned", state));
    let make = wanted!(make_of(words));
    Command::Ask(LineCall::MakeMutex {
        thread,
        make,
        owned,
    })
}

#[inline(always)]
fn semaphore_of(mut words: Words<'_>) -> Command<'_>
    ensures { IsRead result (asked (semaphore_of words.entry)) }
{
    let thread = wanted!(words.labelled(b't'));
    let initial = wanted!(words.next());
    let max = wanted!(words.next());
    let thread = wanted!(thread);
    let initial = wanted!(signed_of(initial));
    let max = wanted!(signed_of(max));
    let make = wanted!(make_of(words));
    Command::Ask(LineCall::MakeSemaphore {
        thread,
        make,
        initial,
        max,
    })
}

#[inline(always)]
fn timer_of(mut words: Words<'_>) -> Command<'_>
    ensures { IsRead result (asked (timer_of words.entry)) }
{
    let thread = wanted!(words.labelled(b't'));
    let reset = wanted!(words.next());
    let thread = wanted!(thread);
    let manual = wanted!(either_of(b"auto", b"manual", reset));
    let make = wanted!(make_of(words));
    Command::Ask(LineCall::MakeTimer {
        thread,
        make,
        manual,
    })
}

#[inline(always)]
fn host_of(mut words: Words<'_>) -> Command<'_>
    ensures { IsRead result (asked (host_of words.entry)) }
{
    let thread = wanted!(words.labelled(b't'));
    let object_type = wanted!(words.next());
    let reset = wanted!(words.next());
    let state = wanted!(words.next());
    let thread = wanted!(thread);
    let object_type = wanted!(type_of(object_type));
    let manual = wanted!(either_of(b"auto", b"manual", reset));
    let signaled = wanted!(either_of(b"clear", b"set", state));
    let make = wanted!(make_of(words));
    Command::Ask(LineCall::MakeHost {
        thread,
        make,
        object_type,
        manual,
        signaled,
    })
}

#[inline(always)]
fn signal_of(mut words: Words<'_>) -> Command<'_>
    ensures { IsRead result (asked (signal_of words.entry)) }
{
    let object = wanted!(words.object());
    let state = wanted!(words.next());
    wanted!(words.end());
    let Id { slot, generation } = wanted!(object);
    let signaled = wanted!(either_of(b"clear", b"set", state));
    let id = Id { slot, generation };
    Command::Ask(LineCall::SignalHost { id, signaled })
}

#[inline(always)]
fn open_of(more: bool, mut words: Words<'_>) -> Command<'_>
    ensures { IsRead result (asked (open_of more words.entry)) }
{
    let thread = wanted!(words.labelled(b't'));
    let kind = wanted!(words.next());
    let mask = wanted!(words.next());
    let thread = wanted!(thread);
    let kind = wanted!(kind_of(more, kind));
    let mask = wanted!(mask_of(mask));
    let inherit = words.skip(b"inherit");
    let text = wanted!(name_of(words));
    Command::Ask(LineCall::OpenNamed {
        thread,
        kind,
        mask,
        inherit,
        text,
    })
}

#[inline(always)]
fn dup_of(mut words: Words<'_>) -> Command<'_>
    ensures { IsRead result (asked (dup_of words.entry)) }
{
    let thread = wanted!(words.labelled(b't'));
    let source = wanted!(words.labelled(b'p'));
    let handle = wanted!(words.labelled(b'h'));
    let target = wanted!(words.next());
    let access = wanted!(words.next());
    let thread = wanted!(thread);
    let source = wanted!(source);
    let handle = wanted!(handle);
    let target = wanted!(target_of(target));
    let (mask, sameness) = wanted!(access_of(access));
    let inherit = words.skip(b"inherit");
    let closing = wanted!(closing_of(words));
    Command::Ask(LineCall::Duplicate {
        thread,
        source,
        handle,
        target,
        mask,
        inherit,
        options: sameness + closing,
    })
}

/// The process that a duplicate is for, or a hyphen, for none.
fn target_of(word: &[u8]) -> Option<Option<u32>>
    ensures { result ≡ target_of word.now }
{
    if is(word, b"-") {
        return Some(None);
    }
    let process = labelled(b'p', word)?;
    Some(Some(process))
}

/// The keyword for the option `DUPLICATE_SAME_ACCESS`, 2, or a mask.
fn access_of(word: &[u8]) -> Option<(Rights, u32)>
    ensures value { result ≡ access_of word.now }
    ensures at_most { IfSome result (λ access. access.1 ≤ 2) }
{
    if is(word, b"same") {
        return Some((Rights(0), 2));
    }
    let mask = mask_of(word)?;
    Some((mask, 0))
}

/// The keyword for the option `DUPLICATE_CLOSE_SOURCE`, 1, if it stands there.
fn closing_of(mut words: Words<'_>) -> Option<u32>
    ensures value { result ≡ closing_of words.entry }
    ensures at_most { IfSome result (λ closing. closing ≤ 1) }
{
    if words.is_empty() {
        return Some(0);
    }
    if !words.skip(b"close") {
        return None;
    }
    words.end()?;
    Some(1)
}

/// A thread and a handle, behind which nothing stands.
#[inline(always)]
fn handle_of(mut words: Words<'_>) -> Option<(u32, u32)>
    ensures { result ≡ handle_of words.entry }
{
    let thread = words.labelled(b't')?;
    let handle = words.labelled(b'h')?;
    words.end()?;
    let thread = thread?;
    let handle = handle?;
    Some((thread, handle))
}

#[inline(always)]
fn close_of(words: Words<'_>) -> Command<'_>
    ensures { IsRead result (asked (handled calls.CloseHandle words.entry)) }
{
    let (thread, handle) = wanted!(handle_of(words));
    Command::Ask(LineCall::CloseHandle { thread, handle })
}

#[inline(always)]
fn flags_of(words: Words<'_>) -> Command<'_>
    ensures { IsRead result (asked (handled calls.GetFlags words.entry)) }
{
    let (thread, handle) = wanted!(handle_of(words));
    Command::Ask(LineCall::GetFlags { thread, handle })
}

#[inline(always)]
fn setflags_of(mut words: Words<'_>) -> Command<'_>
    ensures { IsRead result (asked (setflags_of words.entry)) }
{
    let thread = wanted!(words.labelled(b't'));
    let handle = wanted!(words.labelled(b'h'));
    let mask = wanted!(words.next());
    let flags = wanted!(words.next());
    wanted!(words.end());
    let thread = wanted!(thread);
    let handle = wanted!(handle);
    let mask = wanted!(number_of(mask));
    let flags = wanted!(number_of(flags));
    Command::Ask(LineCall::SetFlags {
        thread,
        handle,
        mask,
        flags,
    })
}

#[inline(always)]
fn set_of(words: Words<'_>) -> Command<'_>
    ensures { IsRead result (asked (handled calls.SetEvent words.entry)) }
{
    let (thread, handle) = wanted!(handle_of(words));
    Command::Ask(LineCall::SetEvent { thread, handle })
}

#[inline(always)]
fn reset_of(words: Words<'_>) -> Command<'_>
    ensures { IsRead result (asked (handled calls.ResetEvent words.entry)) }
{
    let (thread, handle) = wanted!(handle_of(words));
    Command::Ask(LineCall::ResetEvent { thread, handle })
}

#[inline(always)]
fn pulse_of(words: Words<'_>) -> Command<'_>
    ensures { IsRead result (asked (handled calls.PulseEvent words.entry)) }
{
    let (thread, handle) = wanted!(handle_of(words));
    Command::Ask(LineCall::PulseEvent { thread, handle })
}

#[inline(always)]
fn unlock_of(words: Words<'_>) -> Command<'_>
    ensures { IsRead result (asked (handled calls.ReleaseMutex words.entry)) }
{
    let (thread, handle) = wanted!(handle_of(words));
    Command::Ask(LineCall::ReleaseMutex { thread, handle })
}

#[inline(always)]
fn cancel_of(words: Words<'_>) -> Command<'_>
    ensures { IsRead result (asked (handled calls.CancelTimer words.entry)) }
{
    let (thread, handle) = wanted!(handle_of(words));
    Command::Ask(LineCall::CancelTimer { thread, handle })
}

#[inline(always)]
fn settimer_of(mut words: Words<'_>) -> Command<'_>
    ensures { IsRead result (asked (settimer_of words.entry)) }
{
    let thread = wanted!(words.labelled(b't'));
    let handle = wanted!(words.labelled(b'h'));
    let due = wanted!(words.next());
    wanted!(words.end());
    let thread = wanted!(thread);
    let handle = wanted!(handle);
    let due = wanted!(due_of(due));
    Command::Ask(LineCall::SetTimer {
        thread,
        handle,
        due,
    })
}

#[inline(always)]
fn setperiod_of(mut words: Words<'_>) -> Command<'_>
    ensures { IsRead result (asked (setperiod_of words.entry)) }
{
    let thread = wanted!(words.labelled(b't'));
    let handle = wanted!(words.labelled(b'h'));
    let due = wanted!(words.next());
    let period = wanted!(words.next());
    wanted!(words.end());
    let thread = wanted!(thread);
    let handle = wanted!(handle);
    let due = wanted!(due_of(due));
    let period = wanted!(signed_of(period));
    Command::Ask(LineCall::SetPeriodicTimer {
        thread,
        handle,
        due,
        period,
    })
}

#[inline(always)]
fn tick_of(mut words: Words<'_>) -> Command<'_>
    ensures { IsRead result (asked (lone_of moment_of calls.Tick words.entry)) }
{
    let moment = wanted!(words.next());
    wanted!(words.end());
    let now = wanted!(moment_of(moment));
    Command::Ask(LineCall::Tick { now })
}

#[inline(always)]
fn release_of(mut words: Words<'_>) -> Command<'_>
    ensures { IsRead result (asked (release_of words.entry)) }
{
    let thread = wanted!(words.labelled(b't'));
    let handle = wanted!(words.labelled(b'h'));
    let count = wanted!(words.next());
    wanted!(words.end());
    let thread = wanted!(thread);
    let handle = wanted!(handle);
    let count = wanted!(signed_of(count));
    Command::Ask(LineCall::ReleaseSemaphore {
        thread,
        handle,
        count,
    })
}

#[inline(always)]
fn wait_of<'a>(more: bool, mut words: Words<'a>, handles: &mut Handles) -> Command<'a>
    ensures { command_in handles.new.items result ≡ shortened (asked (wait_of more words.entry)) }
{
    let thread = wanted!(words.labelled(b't'));
    let mode = wanted!(words.next());
    let timeout = wanted!(words.next());
    let thread = wanted!(thread);
    let mode = wanted!(mode_of(mode));
    let timeout = wanted!(timeout_of(more, timeout));
    if !read_handles(words, handles) {
        return Command::Bad;
    }
    Command::Ask(LineCall::WaitFor {
        thread,
        mode,
        timeout,
        handles: [],
    })
}

fn mode_of(word: &[u8]) -> Option<Mode>
    ensures { result ≡ mode_of word.now }
{
    if is(word, b"any") {
        Some(Mode::Any)
    } else if is(word, b"all") {
        Some(Mode::All)
    } else {
        None
    }
}

fn timeout_of(more: bool, word: &[u8]) -> Option<Timeout>
    ensures { result ≡ timeout_of more word.now }
{
    if is(word, b"inf") {
        return Some(Timeout::Infinite);
    }
    match word {
        [b'@', rest @ ..] if more => {
            let due = due_of(rest)?;
            Some(Timeout::Until(due))
        }
        _ => {
            let millis = number_of(word)?;
            Some(Timeout::Millis(millis))
        }
    }
}

#[inline(always)]
fn signalwait_of(mut words: Words<'_>) -> Command<'_>
    ensures { IsRead result (asked (signalwait_of words.entry)) }
{
    let thread = wanted!(words.labelled(b't'));
    let signal = wanted!(words.labelled(b'h'));
    let timeout = wanted!(words.next());
    let handle = wanted!(words.labelled(b'h'));
    wanted!(words.end());
    let thread = wanted!(thread);
    let signal = wanted!(signal);
    let timeout = wanted!(timeout_of(true, timeout));
    let handle = wanted!(handle);
    Command::Ask(LineCall::SignalAndWait {
        thread,
        signal,
        timeout,
        handle,
    })
}

#[inline(always)]
fn sleep_of(mut words: Words<'_>) -> Command<'_>
    ensures { IsRead result (asked (sleep_of words.entry)) }
{
    let thread = wanted!(words.labelled(b't'));
    let timeout = wanted!(words.next());
    wanted!(words.end());
    let thread = wanted!(thread);
    let timeout = wanted!(timeout_of(true, timeout));
    Command::Ask(LineCall::Sleep { thread, timeout })
}

#[inline(always)]
fn alert_of(mut words: Words<'_>) -> Command<'_>
    ensures { IsRead result (asked (lone_of (labelled 119) calls.Alert words.entry)) }
{
    let wait = wanted!(words.labelled(b'w'));
    wanted!(words.end());
    let wait = wanted!(wait);
    Command::Ask(LineCall::Alert { wait })
}

/// Reads words as handles into a list, in place of those that stood there, and answers whether each word is one.
#[tactic(auto, using(crate::proofs::Beginnings::full_part, crate::proofs::Beginnings::all_parts))]
fn read_handles(mut words: Words<'_>, handles: &mut Handles) -> bool
    ensures value { result ≡ are_handles words.entry }
    ensures handles { result ≡ true → handles.new.items ≡ take 65 (handles_in words.entry) }
{
    handles.clear();
    while let Some(handle) = words.labelled(b'h') {
        let Some(handle) = handle else {
            return false;
        };
        match handles.try_push(handle) {
            Ok(()) => {}
            // (the list has its 65)
            Err(_) => {}
        }
    }
    true
}

#[inline(always)]
fn result_of(mut words: Words<'_>) -> Command<'_>
    ensures { IsRead result (asked (lone_of (labelled 119) calls.WaitResult words.entry)) }
{
    let wait = wanted!(words.labelled(b'w'));
    wanted!(words.end());
    let wait = wanted!(wait);
    Command::Ask(LineCall::WaitResult { wait })
}

#[inline(always)]
fn expire_of(mut words: Words<'_>) -> Command<'_>
    ensures { IsRead result (asked (lone_of (labelled 119) calls.Expire words.entry)) }
{
    let wait = wanted!(words.labelled(b'w'));
    wanted!(words.end());
    let wait = wanted!(wait);
    Command::Ask(LineCall::Expire { wait })
}

#[inline(always)]
fn endthread_of(mut words: Words<'_>) -> Command<'_>
    ensures { IsRead result (asked (lone_of (labelled 116) calls.EndThread words.entry)) }
{
    let thread = wanted!(words.labelled(b't'));
    wanted!(words.end());
    let thread = wanted!(thread);
    Command::Ask(LineCall::EndThread { thread })
}

#[inline(always)]
fn exit_of(mut words: Words<'_>) -> Command<'_>
    ensures { IsRead result (asked (lone_of (labelled 112) calls.Exit words.entry)) }
{
    let process = wanted!(words.labelled(b'p'));
    wanted!(words.end());
    let process = wanted!(process);
    Command::Ask(LineCall::Exit { process })
}

#[inline(always)]
fn reap_of(mut words: Words<'_>) -> Command<'_>
    ensures { IsRead result (asked (lone_of (labelled 115) calls.Reap words.entry)) }
{
    let slot = wanted!(words.labelled(b's'));
    wanted!(words.end());
    let slot = wanted!(slot);
    Command::Ask(LineCall::Reap { slot })
}

#[inline(always)]
fn count_of(mut words: Words<'_>) -> Command<'_>
    ensures { IsRead result (asked (lone_of id_of calls.Counts words.entry)) }
{
    let object = wanted!(words.object());
    wanted!(words.end());
    // (by its parts: eight bytes at once would keep the command in memory, and wait there)
    let Id { slot, generation } = wanted!(object);
    let id = Id { slot, generation };
    Command::Ask(LineCall::Counts { id })
}

#[inline(always)]
fn pin_of(words: Words<'_>) -> Command<'_>
    ensures { IsRead result (on_object Pin (object_of words.entry)) }
{
    let id = wanted!(object_of(words));
    Command::Pin(id)
}

#[inline(always)]
fn unpin_of(words: Words<'_>) -> Command<'_>
    ensures { IsRead result (on_object Unpin (object_of words.entry)) }
{
    let id = wanted!(object_of(words));
    Command::Unpin(id)
}

#[inline(always)]
fn card_of(words: Words<'_>) -> Command<'_>
    ensures { IsRead result (on_object ShowCard (object_of words.entry)) }
{
    let id = wanted!(object_of(words));
    Command::ShowCard(id)
}

/// An object, behind which nothing stands.
//
// What the reader is asked is seldom, so it isn't copied to each of its verbs.
#[inline(never)]
fn object_of(mut words: Words<'_>) -> Option<Id>
    ensures { result ≡ object_of words.entry }
{
    let object = words.object()?;
    words.end()?;
    object
}
