ghost use Rattle.std.specs.Prelude.{◌≡◌, ◌++◌, All, IfOk, OnOk};
ghost use Rattle.ob_script.specs.Telling.{text_for};
ghost use Rattle.ob_console.specs.Retelling.{FitsEntry, script_of};

use ob_script::Record;
use ob_shared::Entry;
use std::alloc::{AllocError, Global};

/// A journal as a script, as [`Record`] tells each entry: a run of it under the same limits prints what the entries
/// were answered ([`law_of_replay`](crate::law_of_replay)). The refusal is want of memory.
pub fn script_of(alloc: Global, journal: &[Entry]) -> Result<Vec<u8>, AllocError>
    ensures script { IfOk result (λ text. text.items ≡ script_of journal.now) }
    ensures fits { IfOk result (λ _. All FitsEntry journal.now) }
{
    let mut record = Record::new(alloc)?;
    for entry in journal {
        add(&mut record, entry)?;
    }
    Ok(record.into_text())
}

/// Adds an entry.
#[tactic(auto, using(ob_manager::proofs::OwnParts::own_parts))]
fn add(script: &mut Record, entry: &Entry) -> Result<(), AllocError>
    ensures ok { OnOk result (script.new ≡ script.old ++ text_for entry.now.call entry.now.reply) }
    ensures fits { FitsEntry entry.now }
{
    script.add(&entry.call, &entry.reply)
}
