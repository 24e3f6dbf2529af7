//! What C holds: a pointer to a manager on the heap, which is hidden behind a pointer to bytes, since C may be passed
//! no type that leads to memory of Rust's. In proofs each has the manager as its value.
ghost use Rattle.std.specs.Prelude.{◌≡◌, Option, Some};
ghost use Rattle.std.specs.Borrow.{sem};
ghost use Rattle.std.specs.Coded.{coded_option};
ghost use Rattle.std.specs.Option.{option_map};
ghost use Rattle.obman_c_base.specs.contracts.owned.OwnedManager.{the_row};
ghost use Rattle.obman_c_base.specs.declared.owned.OwnedManager.{OwnedManager};
ghost use Rattle.ob_manager.specs.Steps.{reply_of};
ghost use Rattle.obman_c_base.specs.Made.{Makes, call_of};
ghost use Rattle.obman_c_base.specs.Owning.{owner_owns, owns_or_null, place_owns};

use crate::owned::OwnedManager;
use crate::parts::BoxParts;
use ob_manager::{Ask, Reply};
use ob_rights::Fault;
use std::alloc::Global;
use std::marker::Model;

/// A manager that C owns (`om_manager`).
#[repr(C)]
pub struct ManagerOwner {
    at: *mut u8,
    alloc: Global,
    pub ghost value: { OwnedManager } by { the_row.coded },
}

impl Model for ManagerOwner {
    ghost also_owns = { λ owner. owner_owns the_row owner.alloc owner.at owner.value };
}

/// Where C wants a manager to be: the same bytes, which own a manager once it is there, and what C had there before is
/// nobody's.
#[repr(C)]
#[derive(Drop)]
pub struct ManagerOut {
    at: *mut u8,
    alloc: Global,
    pub ghost value: { Option OwnedManager } by { coded_option the_row.coded },
}

impl Model for ManagerOut {
    ghost also_owns = { λ place. place_owns the_row place.alloc place.at place.value };
}

/// What C ends: the same bytes, a manager, or nothing where they are zeros.
#[repr(C)]
pub struct ManagerTaken {
    at: *mut u8,
    alloc: Global,
    pub ghost value: { Option OwnedManager } by { coded_option the_row.coded },
}

impl Model for ManagerTaken {
    ghost also_owns = { λ ending. owns_or_null the_row ending.alloc ending.at ending.value };
}

// C may pass a manager from thread to thread, as long as one call at a time has it.
unsafe impl Send for ManagerOwner {}

unsafe impl Send for ManagerTaken {}

impl ManagerOwner {
    ghost use Rattle.obman_c_base.specs.Lending.{LendsManager};

    /// The manager, lent.
    pub fn lend(&mut self) -> &mut OwnedManager
        ensures* writes_back { sem 𝓛 (LendsManager self.entry result) }
        ensures value { result.now ≡ self.old.value }
    {
        unsafe { &mut *(self.at as *mut OwnedManager) }
    }

    /// Makes a call, and records it with its answer where calls are recorded.
    #[inline(always)]
    pub fn call(&mut self, call: &Ask<'_>) -> Result<Reply, Fault>
        ensures { Makes self.old.value (call_of call.now) (reply_of result) self.new.value }
    {
        self.lend().call(call)
    }
}

impl ManagerOut {
    /// A place with the manager of a box.
    pub fn of(held: Box<OwnedManager>) -> ManagerOut
        ensures { result.value ≡ Some held.value }
    {
        ManagerOut::of_parts(BoxParts::of(held))
    }

    fn of_parts(parts: BoxParts<OwnedManager, Global>) -> ManagerOut
        ensures { result.value ≡ Some parts.value }
    {
        let BoxParts { at, alloc } = parts;
        ManagerOut {
            at: at as *mut u8,
            alloc,
        }
    }
}

impl ManagerTaken {
    /// What owns the manager, where there is one.
    pub fn owner(self) -> Option<BoxParts<OwnedManager, Global>>
        ensures { option_map (λ owner. owner.value) result ≡ self.value }
    {
        let ManagerTaken { at, alloc } = self;
        if at.is_null() {
            None
        } else {
            Some(BoxParts {
                at: at as *mut OwnedManager,
                alloc,
            })
        }
    }
}
