ghost use Rattle.std.specs.Prelude.{◌≡◌, true, IsSome};
ghost use Rattle.ob_waits.specs.CountedBodies.{CountedBodies, body_of, slot_room, with_body, without_block};
ghost use Rattle.ob_waits.specs.Waits.{is_abandoned, is_signaled, with_acquired};

use ob_body::{Body, RECURSION_MAX};
use pin_core::Id;

/// The objects that waits are for: the body of each, by its Id.
///
/// What is behind the trait counts the handles and the blocks of each object. It is told each block that leaves, which
/// is each place of a pending wait's list once the wait is over; where that was the last, and no handle is left, the
/// object ends: it has no body any more (*profile*).
pub trait Bodies {
    /// The bodies, and how many handles and blocks each slot counts.
    ghost objects: { Self → CountedBodies };

    /// What `rest` is: by default it says nothing.
    ghost Rest: { Type 0 } = { Unit {0} };

    /// All else that is behind the trait. Waits leave it as it is.
    ghost rest: { Self → Self.Rest };

    /// The body of an object, or none where a wait for the object is never satisfied.
    fn body(&self, id: Id) -> Option<Body>
        ensures body { result ≡ body_of (objects self.now).bodies id };

    /// Changes the body of an object that has one.
    fn put(&mut self, id: Id, body: Body)
        requires is_there { IsSome (body_of (objects self.old).bodies id) }
        ensures objects { objects self.new ≡ with_body (objects self.old) id body }
        ensures rest { rest self.new ≡ rest self.old };

    /// A thread acquires an object that is signaled for it; whether that was an abandoned mutex.
    fn acquire(&mut self, id: Id, thread: u32) -> bool
        requires signaled { is_signaled thread (objects self.old).bodies id ≡ true }
        requires room { slot_room RECURSION_MAX thread (body_of (objects self.old).bodies id) ≡ true }
        ensures was_abandoned { result ≡ is_abandoned (objects self.old).bodies id }
        ensures objects { objects self.new ≡ record (objects self.old) {
          bodies = with_acquired thread
              (objects self.old).bodies id;
        } }
        ensures rest { rest self.new ≡ rest self.old }
    {
        let Some(mut body) = self.body(id) else {
            unreachable!()
        };
        let was_abandoned = body.acquire(thread);
        self.put(id, body);
        was_abandoned
    }

    /// A pending wait that named the object, at one place of its list, is pending no more.
    fn block_left(&mut self, id: Id)
        ensures objects { objects self.new ≡ without_block (objects self.old) id }
        ensures rest { rest self.new ≡ rest self.old };
}
