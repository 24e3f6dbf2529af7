ghost use Rattle.std.specs.Prelude.{◌≡◌, ◌++◌, ◌⊎◌, ℕ, List, Ok, true, None, Some, is_some, slice_index_or};
ghost use Rattle.ob_codec.specs.Laws.{Takes};
ghost use Rattle.ob_codec.specs.Spelling.{AreBytes};
ghost use Rattle.ob_waits.specs.Ends.{HasBlocks, settled_plainly, with_ends};
ghost use Rattle.ob_waits.specs.Form.{slot_form, slot_owner, HasWait};
ghost use Rattle.ob_waits.specs.Rules.{HasBodies, IsSettled, thread_of};
ghost use Rattle.ob_waits.specs.Spelling.{WaitsFit, are_within, waits_at, waits_text};
ghost use Rattle.ob_waits.specs.Waits.{Scene, WaitList, settled, is_pending};

/// What settling keeps, whatever the objects and the waits are.
///
/// A wait stays its thread's, and one that stays pending stays as it is. No handle goes. Each slot goes on counting its
/// blocks. A body keeps its kind, an event whether it is reset by hand, a semaphore its maximum; a mutex has the owner
/// that it had, or a thread that waits, or none. A state with nothing to settle stays.
pub fn law_of_settling()
    ensures settled { (scene : Scene) → IsSettled scene.objects.bodies scene.waits → settled scene ≡ scene }
    ensures threads { (scene : Scene) (n : ℕ) → thread_of (slice_index_or (settled scene).waits n None)
        ≡ thread_of (slice_index_or scene.waits n None) }
    ensures pending { (scene : Scene) (n : ℕ) → is_pending (slice_index_or (settled scene).waits n None) ≡ true
        → slice_index_or (settled scene).waits n None ≡ slice_index_or scene.waits n None }
    ensures handles { (scene : Scene) → (settled scene).objects.handles ≡ scene.objects.handles }
    ensures blocks { (scene : Scene) → HasBlocks scene → HasBlocks (settled scene) }
    ensures forms { (scene : Scene) (slot : ℕ) → is_some (slice_index_or (settled scene).objects.bodies slot None)
        ≡ true
        → slot_form (slice_index_or (settled scene).objects.bodies slot None)
        ≡ slot_form (slice_index_or scene.objects.bodies slot None) }
    ensures owners { (scene : Scene) (slot thread : ℕ) → slot_owner
        (slice_index_or (settled scene).objects.bodies slot None) ≡ Some thread
        → (slot_owner (slice_index_or scene.objects.bodies slot None) ≡ Some thread) ⊎ HasWait thread scene.waits }
{}

/// When objects end: exactly where no handle and no block refers to them any more.
///
/// A slot that has a body exactly where something refers to its object goes on so. And it makes no difference that an
/// object ends where its last block leaves: the state is the one that satisfying the waits first, and ending every
/// object to which nothing refers after that, leads to.
pub fn law_of_ends()
    ensures bodies { (scene : Scene) → HasBodies scene.objects → HasBodies (settled scene).objects }
    ensures last { (scene : Scene) → HasBodies scene.objects → HasBlocks scene
        → settled scene ≡ with_ends (settled_plainly scene) }
{}

/// Waits that were written are read again, whatever stands behind them, and what is read was written so.
pub fn law_of_spelled_waits()
    ensures again { (threads slots : ℕ) (list : WaitList) (rest : List ℕ) → WaitsFit list
        → are_within threads slots list.waits ≡ true
        → waits_at list.limit list.clock threads slots (waits_text list.waits ++ rest) ≡ Ok (list, rest) }
    ensures takes { (limit clock threads slots : ℕ) (bytes : List ℕ) (list : WaitList) (rest : List ℕ) → AreBytes bytes
        → waits_at limit clock threads slots bytes ≡ Ok (list, rest)
        → Takes bytes (waits_text list.waits) rest × WaitsFit list × (are_within threads slots list.waits ≡ true) }
{}
