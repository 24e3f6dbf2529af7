//! The storage: one block of memory for slots side by side, each empty or with a body. Each function here reaches
//! memory by a pointer.
ghost use Rattle.std.specs.Prelude.{◌≡◌, ℕ, ◌<◌, List, Option, Some, None, length, replicate, get_or, slice_set, IfOk};
ghost use Rattle.std.specs.Prelude.{IsTrue, ⊤};
ghost use prog.Memory.{size, capped};
ghost use denote.Param.{layout};
ghost use Rattle.std.specs.Borrow.{sem};
ghost use Rattle.std.specs.Vec.Ownership.{FitsInBlock};
ghost use base.Fml.{ftrue};
ghost use denote.RawPtr.{Ptr};
ghost use Rattle.ob_arena.specs.Slots.{IsFilled};
ghost use Rattle.ob_arena.specs.Memory.{storage_owns, storage_lends, title_owns};

use std::alloc::{AllocError, Allocator};
use std::marker::{Model, PhantomData, Send, Sync};
use std::mem::{align_of, size_of};

/// Where the storage begins. It owns nothing.
pub(crate) struct Front<B> {
    first: *mut B,
}

impl<B> Clone for Front<B> {
    ghost is_clone = { λ x y. y ≡ x };

    ghost is_infallible = { λ _. ⊤ };

    fn clone(&self) -> Result<Front<B>, AllocError> {
        Ok(*self)
    }
}

impl<B> Copy for Front<B> {}

unsafe impl<B> Send for Front<B> {}

unsafe impl<B> Sync for Front<B> {}

/// The owner of the slots. It has no bytes: the arena has the pointer.
pub(crate) struct Storage<B> {
    mark: PhantomData<*const B>,
    ghost front: { Ptr },
    ghost slots: { List (Option B) },
}

impl<B> Model for Storage<B> {
    ghost also_owns = { λ storage. storage_owns B.row storage.front storage.slots };

    ghost also_shares = { λ storage _ κ. storage_lends B.row storage.front storage.slots κ };
}

unsafe impl<B: Send> Send for Storage<B> {}

unsafe impl<B: Sync> Sync for Storage<B> {}

/// The right to give the memory of `len` slots back to `alloc`. It has no bytes.
pub(crate) struct Title<B, A: Allocator> {
    mark: PhantomData<*const (B, A)>,
    ghost front: { Ptr },
    ghost len: { ℕ },
    ghost alloc: { A },
}

impl<B, A: Allocator> Model for Title<B, A> {
    ghost also_owns = { λ title. title_owns B.row (A.dealloc_token title.alloc) title.front title.len };

    ghost also_shares = { λ _ _ _. ftrue };
}

unsafe impl<B, A: Allocator + Send> Send for Title<B, A> {}

// A `&` to it holds nothing.
unsafe impl<B, A: Allocator> Sync for Title<B, A> {}

/// The bytes of a body.
fn body_size<B>() -> usize
    ensures { result ≡ capped (size (layout B.row)) }
{
    size_of::<B>()
}

/// Whether `len` slots are few enough for one block of memory.
pub(crate) fn fits<B>(len: usize) -> bool
    ensures { IsTrue result → FitsInBlock B.row len }
{
    let most = isize::MAX as usize;
    let size = body_size::<B>();
    if most < len || most < size {
        return false;
    }
    match len.checked_mul(size) {
        Some(bytes) => bytes <= most,
        None => false,
    }
}

/// Takes memory for `len` empty slots.
pub(crate) fn allocate<B, A: Allocator>(
    alloc: &A,
    len: usize,
) -> Result<(Front<B>, Storage<B>, Title<B, A>), AllocError>
    requires { FitsInBlock B.row len }
    ensures { IfOk result (λ r. (r.1.front ≡ r.0.first) × (r.1.slots ≡ replicate len None) × (r.2.front ≡ r.0.first)
        × (r.2.len ≡ len) × (r.2.alloc ≡ alloc.now)) }
{
    match alloc.allocate(len * size_of::<B>(), align_of::<B>()) {
        Ok(block) => {
            let front = Front {
                first: block as *mut B,
            };
            Ok((
                front,
                Storage { mark: PhantomData },
                Title { mark: PhantomData },
            ))
        }
        Err(refused) => Err(refused),
    }
}

/// Gives the memory of `len` empty slots back.
pub(crate) fn deallocate<B, A: Allocator>(
    alloc: &A,
    front: Front<B>,
    len: usize,
    storage: Storage<B>,
    title: Title<B, A>,
)
    requires { (storage.front ≡ front.first) × (storage.slots ≡ replicate len None) × (title.front ≡ front.first)
        × (title.len ≡ len) × (title.alloc ≡ alloc.now) }
{
    let Storage { mark: _ } = storage;
    let Title { mark: _ } = title;
    unsafe {
        alloc.deallocate(
            front.first as *mut u8,
            len * size_of::<B>(),
            align_of::<B>(),
        );
    }
}

impl<B> Storage<B> {
    ghost use Rattle.ob_arena.specs.StorageLends.{lends_slot};

    /// Puts a body into an empty slot.
    pub(crate) fn fill(&mut self, front: Front<B>, at: usize, body: B)
        requires { (front.first ≡ self.old.front) × (at < length self.old.slots)
            × (get_or self.old.slots at None ≡ None) }
        ensures { (self.new.front ≡ self.old.front) × (self.new.slots ≡ slice_set self.old.slots at (Some body)) }
    {
        unsafe { front.first.add(at).write(body) }
    }

    /// Moves the body out of a slot, which is empty then.
    pub(crate) fn empty(&mut self, front: Front<B>, at: usize) -> B
        requires { (front.first ≡ self.old.front) × IsFilled self.old.slots at }
        ensures body { get_or self.old.slots at None ≡ Some result }
        ensures slots { (self.new.front ≡ self.old.front) × (self.new.slots ≡ slice_set self.old.slots at None) }
    {
        unsafe { front.first.add(at).read() }
    }

    /// The body in a slot.
    pub(crate) fn show(&self, front: Front<B>, at: usize) -> &B
        requires { (front.first ≡ self.now.front) × IsFilled self.now.slots at }
        ensures { get_or self.now.slots at None ≡ Some result.now }
    {
        unsafe { &*front.first.add(at) }
    }

    /// The body in a slot, to change.
    pub(crate) fn lend(&mut self, front: Front<B>, at: usize) -> &mut B
        requires { (front.first ≡ self.old.front) × IsFilled self.old.slots at }
        ensures* writes_back { sem 𝓛 (lends_slot B.row self.entry at result) }
        ensures value { get_or self.old.slots at None ≡ Some result.now }
    {
        unsafe { &mut *front.first.add(at) }
    }
}
