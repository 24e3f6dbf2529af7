//! A batch of calls, as the program reads and prints them.
ghost use Rattle.obman_c_whole.specs.Handing.{Gives};
ghost use Rattle.obman_c_whole.specs.Scripts.{ScriptAnswered};

use crate::handing::hand_over;
use ob_console::run_whole;
use ob_rights::{Fault, code_of};
use ob_script::Collected;
use obman_c_base::{CLimits, TOO_SMALL, limits_of};
use std::alloc::Global;

/// Answers a script over a new manager, as the program does without lanes and without `--more`, at the front of `answers`: 0, 87 where a
/// limit is out of its range, 8, or 122 where the answers don't fit. `length` says how long they are, with 0 and with
/// 122. Answers that don't fit are counted, and take no memory.
#[tactic(auto, using(crate::proofs::Scripted::outside, crate::proofs::Scripted::lacks))]
#[unsafe(no_mangle)]
pub extern "C" fn om_script(
    alloc: Global,
    bounds: &CLimits,
    script: &[u8],
    answers: &mut [u8],
    length: &mut usize,
) -> u32
    ensures { ScriptAnswered bounds.now script.now result answers.old answers.new length.old length.new }
{
    let Ok(limits) = limits_of(bounds) else {
        return code_of(Fault::Parameter);
    };
    let mut sink = Collected::new(alloc, answers.len());
    match run_whole(alloc, false, limits, script, &mut sink) {
        Ok(()) => tell(&sink, answers, length),
        Err(_) => code_of(Fault::Memory),
    }
}

/// Puts what was collected at the front of a room, where it fits, and says how long it is. The 8 never comes: a sink
/// keeps what fits the room that it was made for.
fn tell(collected: &Collected, room: &mut [u8], length: &mut usize) -> u32
    ensures { Gives collected.now.io_trace.bytes result room.old room.new length.old length.new }
{
    if collected.len() > room.len() {
        *length = collected.len();
        return TOO_SMALL;
    }
    match collected.whole() {
        Some(bytes) => hand_over(bytes, room, length),
        None => code_of(Fault::Memory),
    }
}
