ghost use Rattle.std.specs.Prelude.{◌≡◌, ◌<◌, ◌+◌, ◌-◌, ◌==◌, true, None, Some, if◌then◌else◌};
ghost use Rattle.ob_waits.specs.Form.{slot_due, slot_owner};
ghost use Rattle.ob_waits.specs.CountedBodies.{slot_abandoned, slot_acquired, slot_room, slot_signaled};
ghost use Rattle.ob_store.specs.Objects.{header_handle_left, header_block_left};

use ob_body::{Body, RECURSION_MAX};
use ob_rights::Rights;
use pin_core::Id;

/// The header of an object in its slot (NT's `OBJECT_HEADER`): its body, and how much refers to it. What else it was
/// created with is its label.
#[derive(Drop)]
pub struct ObjectHeader {
    // One cache line, whatever an object was created with: what few calls read stands in its label, and its name beside
    // that.
    /// Its Id, whose slot this is.
    pub id: Id,
    /// How many handles name it.
    pub handles: u32,
    /// The rights that an open or a duplicate may get (*profile*).
    pub grant: Rights,
    /// How many places of pending waits name it.
    pub blocks: u64,
    /// Its body: none once nothing refers to it.
    pub body: Option<Body>,
}

/// What a thread acquired: whether it was an abandoned mutex, and which thread owned it before and owns it after.
#[derive(Clone, Copy)]
pub(crate) struct Acquired {
    pub(crate) was_abandoned: bool,
    pub(crate) before: Option<u32>,
    pub(crate) after: Option<u32>,
}

/// Which thread owned the mutex that was replaced, and when the timer that was replaced was due.
#[derive(Clone, Copy)]
pub(crate) struct Replaced {
    pub(crate) owner: Option<u32>,
    pub(crate) due: Option<u64>,
}

impl ObjectHeader {
    /// Replaces the body. The answer says which thread owned the old one, and when it was due.
    #[inline(always)]
    pub(crate) fn put(&mut self, body: Body) -> Replaced
        ensures value { self.new ≡ record self.old { body = Some body } }
        ensures owner { result.owner ≡ slot_owner self.old.body }
        ensures due { result.due ≡ slot_due self.old.body }
    {
        let was = match &self.body {
            Some(body) => Replaced {
                owner: body.owner(),
                due: body.due(),
            },
            None => Replaced {
                owner: None,
                due: None,
            },
        };
        self.body = Some(body);
        was
    }

    /// A thread acquires the object, which has to be signaled for the thread.
    #[inline]
    pub(crate) fn acquire(&mut self, thread: u32) -> Acquired
        requires signaled { slot_signaled thread self.old.body ≡ true }
        requires room { slot_room RECURSION_MAX thread self.old.body ≡ true }
        ensures value { self.new ≡ record self.old { body = slot_acquired thread self.old.body } }
        ensures was_abandoned { result.was_abandoned ≡ slot_abandoned self.old.body }
        ensures before { result.before ≡ slot_owner self.old.body }
        ensures after { result.after ≡ slot_owner self.new.body }
    {
        let Some(body) = &mut self.body else {
            unreachable!()
        };
        let before = body.owner();
        let was_abandoned = body.acquire(thread);
        Acquired {
            was_abandoned,
            before,
            after: body.owner(),
        }
    }

    /// Counts one handle fewer. With the last reference the body goes, and is returned.
    #[inline]
    pub(crate) fn handle_left(&mut self) -> Option<Body>
        requires { 0 < self.old.handles }
        ensures value { self.new ≡ header_handle_left self.old }
        ensures gone { result ≡ if (self.old.handles - 1) + self.old.blocks == 0 then self.old.body else None }
    {
        self.handles -= 1;
        self.end_if_free()
    }

    /// Counts one block fewer, where there is one. With the last reference the body goes, and is returned.
    pub(crate) fn block_left(&mut self) -> Option<Body>
        ensures value { self.new ≡ header_block_left self.old }
        ensures gone { result ≡ if self.old.handles + (self.old.blocks - 1) == 0 then self.old.body else None }
    {
        if self.blocks > 1 {
            self.blocks -= 1;
            return None;
        }
        self.blocks = 0;
        self.end_if_free()
    }

    // The body goes where nothing refers to the object.
    #[inline]
    fn end_if_free(&mut self) -> Option<Body>
        ensures value { self.new ≡ record self.old {
          body = if self.old.handles + self.old.blocks == 0 then None
              else self.old.body;
        } }
        ensures gone { result ≡ if self.old.handles + self.old.blocks == 0 then self.old.body else None }
    {
        if self.handles > 0 || self.blocks > 0 {
            return None;
        }
        self.body.take()
    }
}
