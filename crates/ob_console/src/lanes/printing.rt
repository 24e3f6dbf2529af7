ghost use Rattle.std.specs.Prelude.{◌≡◌};
ghost use Rattle.ob_console.specs.Answers.{answer_of};
ghost use Rattle.ob_script.specs.Pending.{UsesSink};

use ob_script::{Answer, NotWritten, Output, Sink};
use ob_shared::{Act, Member, Seen};

/// What is printed for an act, by what it was answered with: nothing where its member was stopped.
fn answer_of(act: &Act, seen: Seen) -> Option<Answer<'static>>
    ensures { result ≡ answer_of act.now seen }
{
    match (act, seen) {
        (_, Seen::Reply(reply)) => Some(Answer::Replied(reply)),
        (_, Seen::Blocked(Some(reply))) => Some(Answer::Replied(reply)),
        (_, Seen::Blocked(None)) => Some(Answer::NoWait),
        (_, Seen::Shown(card)) => Some(Answer::Shown(card)),
        (Act::Pin(id), Seen::Pinned(answer)) => Some(Answer::Pinned(*id, answer)),
        (Act::Unpin(id), Seen::Unpinned(done)) => Some(Answer::Unpinned(*id, done)),
        _ => None,
    }
}

/// Prints what an act was answered with.
fn print_answer<W: Sink>(
    output: &mut Output,
    sink: &mut W,
    act: Option<&Act>,
    seen: Seen,
) -> Result<(), NotWritten>
    ensures sink { UsesSink W.calls W.faults result sink.old sink.new output.old output.new }
{
    let Some(act) = act else {
        return Ok(());
    };
    match answer_of(act, seen) {
        Some(answer) => output.put(sink, &answer),
        None => Ok(()),
    }
}

/// Prints the answers of one member's acts.
fn print_answers<W: Sink>(
    output: &mut Output,
    sink: &mut W,
    script: &[Act],
    seen: &[Seen],
) -> Result<(), NotWritten>
    ensures sink { UsesSink W.calls W.faults result sink.old sink.new output.old output.new }
{
    for (place, answer) in seen.iter().enumerate() {
        print_answer(output, sink, script.get(place), *answer)?;
    }
    Ok(())
}

/// Prints each member's answers, behind the number of its lane.
pub fn print_members<W: Sink>(
    output: &mut Output,
    sink: &mut W,
    members: &[Member],
) -> Result<(), NotWritten>
    ensures sink { UsesSink W.calls W.faults result sink.old sink.new output.old output.new }
{
    for member in members {
        output.put(sink, &Answer::Lane(member.lane.number()))?;
        print_answers(
            output,
            sink,
            member.script.as_slice(),
            member.seen.as_slice(),
        )?;
    }
    Ok(())
}
