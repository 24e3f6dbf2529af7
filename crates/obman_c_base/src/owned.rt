ghost use Rattle.std.specs.Prelude.{◌≡◌, IfOk};
ghost use Rattle.ob_manager.specs.Steps.{reply_of};
ghost use Rattle.obman_c_base.specs.Made.{Makes, call_of};
ghost use Rattle.obman_c_base.specs.Owned.{unrecorded};

use ob_manager::{Ask, HostData, Manager, Reply};
use ob_rights::Fault;
use ob_script::Recorder;
use pin_words::{Keeper, Reader};
use std::alloc::{AllocError, Global};

/// What C's pointer to a manager leads to.
#[derive(Drop)]
pub struct OwnedManager {
    /// The manager, over words that readers pin beside it.
    pub manager: Manager<Keeper>,
    /// Its calls with their answers, while they are recorded.
    pub recorder: Recorder,
    /// What the host keeps at objects, threads and processes.
    pub kept: HostData,
}

/// What C's pointer to a reader leads to.
#[derive(Drop)]
pub struct OwnedReader {
    /// The reader.
    pub reader: Reader,
}

impl OwnedManager {
    /// A manager in a box of its own, whose calls aren't recorded, with what the host keeps.
    pub fn boxed(
        alloc: Global,
        manager: Manager<Keeper>,
        kept: HostData,
    ) -> Result<Box<OwnedManager>, AllocError>
        ensures { IfOk result (λ held. held.value ≡ unrecorded manager kept) }
    {
        Ok(Box::new(
            alloc,
            OwnedManager {
                manager,
                recorder: Recorder::new(alloc),
                kept,
            },
        )?)
    }

    /// Makes a call, and records it with its answer where calls are recorded.
    // What is recorded stands apart, so that a call and its reply stay in registers where nothing is.
    #[inline(always)]
    #[tactic(auto, using(crate::proofs::Made::unnoted))]
    pub fn call(&mut self, call: &Ask<'_>) -> Result<Reply, Fault>
        ensures { Makes self.old (call_of call.now) (reply_of result) self.new }
    {
        if self.recorder.is_on() {
            let call = *call;
            return Ok(self.recorded(&call));
        }
        let answer = self.manager.try_call(call);
        self.kept.follow(call, &answer);
        answer
    }

    #[cold]
    #[inline(never)]
    #[tactic(auto, using(crate::proofs::Made::noted))]
    fn recorded(&mut self, call: &Ask<'_>) -> Reply
        ensures { Makes self.old (call_of call.now) result self.new }
    {
        let reply = self.manager.call(call);
        self.recorder.note(call, &reply);
        self.kept.follow(call, &Ok(reply));
        reply
    }
}
