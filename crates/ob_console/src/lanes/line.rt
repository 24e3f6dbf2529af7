ghost use Rattle.std.specs.Prelude.{◌≡◌, ◌≤◌, IfSome, List, ℕ};
ghost use Rattle.ob_console.specs.Lines.{IsOfLane, behind_prefix, in_lane, is_marked, lane_of, line_in};
ghost use Rattle.ob_console.specs.Lines.{line_of, with_prefix, without_prefix};
ghost use Rattle.ob_script.specs.Commands.{command_in, shortened};
ghost use Rattle.ob_script.specs.Grammar.{command_of};

use ob_script::{
    Command, Handles, LineCall, ScriptLine, command_of, cut_far, is_too_long, labelled, text_of,
};
use pin_core::Id;

/// What a line asks of the member of a lane, with names as they stand in the line. The handles of a wait stand beside
/// it.
#[derive(Clone, Copy)]
pub enum LaneCommand<'a> {
    /// A call.
    Ask(LineCall<'a>),
    /// The reader is to hold one copy more of an Id.
    Pin(Id),
    /// The reader is to let one copy of an Id go.
    Unpin(Id),
    /// What the object of a held Id was created as.
    ShowCard(Id),
    /// The member is to block until its last wait is answered.
    Block,
}

/// What a line of a script with lanes is.
#[derive(Clone, Copy)]
pub enum LaneLine<'a> {
    /// An empty line or a comment, which is in no lane.
    Nothing,
    /// A line outside the grammar, or one that may not stand where it does.
    Bad,
    /// What the member of the lane of this number is to do. The prologue is lane 0.
    Acts(u32, LaneCommand<'a>),
}

/// What a line is, without its line feed, in a script with so many lanes beside the prologue. Without a prefix it
/// belongs to the prologue, as long as that goes on. `more` and `handles` are those of
/// [`command_of`](ob_script::command_of).
pub fn line_of<'a>(
    more: bool,
    lanes: u32,
    is_prologue: bool,
    line: &'a [u8],
    handles: &mut Handles,
) -> LaneLine<'a>
    ensures value { line_in handles.new.items result ≡ line_of more lanes is_prologue line.now }
    ensures lane { IsOfLane lanes result }
{
    if is_too_long(text_of(line)) {
        return LaneLine::Bad;
    }
    if is_marked(line) {
        return with_prefix(more, lanes, line, handles);
    }
    without_prefix(is_prologue, read(more, line, handles))
}

/// What a line is behind its prefix, or where it has none.
fn read<'a>(more: bool, line: &'a [u8], handles: &mut Handles) -> Command<'a>
    ensures { command_in handles.new.items result ≡ shortened (command_of more line.now) }
{
    command_of(more, &ScriptLine::of(line), handles)
}

/// Whether a line begins with an @.
pub fn is_marked(line: &[u8]) -> bool
    ensures { result ≡ is_marked line.now }
{
    !line.is_empty() && line[0] == b'@'
}

/// What an act of a line is in a lane.
fn in_lane(number: u32, act: Command<'_>) -> LaneLine<'_>
    ensures value { (handles : List ℕ) → line_in handles result ≡ in_lane number (command_in handles act.entry) }
    ensures lane { IsOfLane number result }
{
    match act {
        Command::Nothing => LaneLine::Nothing,
        Command::Bad | Command::ListNames => LaneLine::Bad,
        Command::Ask(ask) => LaneLine::Acts(number, LaneCommand::Ask(ask)),
        Command::Pin(id) => LaneLine::Acts(number, LaneCommand::Pin(id)),
        Command::Unpin(id) => LaneLine::Acts(number, LaneCommand::Unpin(id)),
        Command::ShowCard(id) => LaneLine::Acts(number, LaneCommand::ShowCard(id)),
    }
}

/// What the act of a line without a prefix is.
fn without_prefix(is_prologue: bool, act: Command<'_>) -> LaneLine<'_>
    ensures value { (handles : List ℕ) → line_in handles result
        ≡ without_prefix is_prologue (command_in handles act.entry) }
    ensures lane { IsOfLane 0 result }
{
    if is_prologue {
        return in_lane(0, act);
    }
    match act {
        Command::Nothing => LaneLine::Nothing,
        _ => LaneLine::Bad,
    }
}

/// What a line is that begins with an @.
#[tactic(auto, using(crate::proofs::Prefixes::nothing_behind))]
fn with_prefix<'a>(more: bool, lanes: u32, line: &'a [u8], handles: &mut Handles) -> LaneLine<'a>
    ensures value { line_in handles.new.items result ≡ with_prefix more lanes line.now }
    ensures lane { IsOfLane lanes result }
{
    let Some((word, rest)) = cut_far(b' ', line) else {
        return LaneLine::Bad;
    };
    match lane_of(lanes, word) {
        Some(number) => behind_prefix(more, number, rest, handles),
        None => LaneLine::Bad,
    }
}

/// The number of a lane behind an @.
fn lane_of(lanes: u32, word: &[u8]) -> Option<u32>
    ensures value { result ≡ lane_of lanes word.now }
    ensures at_most { IfSome result (λ number. number ≤ lanes) }
{
    let number = labelled(b'@', word)?;
    if number == 0 || number > lanes || word.get(1) == Some(&b'0') {
        return None;
    }
    Some(number)
}

/// What a line behind its prefix is.
fn behind_prefix<'a>(more: bool, number: u32, line: &'a [u8], handles: &mut Handles) -> LaneLine<'a>
    ensures value { line_in handles.new.items result ≡ behind_prefix more number line.now }
    ensures lane { IsOfLane number result }
{
    if text_of(line) == b"block".as_slice() {
        return LaneLine::Acts(number, LaneCommand::Block);
    }
    match read(more, line, handles) {
        Command::Nothing => LaneLine::Bad,
        act => in_lane(number, act),
    }
}
