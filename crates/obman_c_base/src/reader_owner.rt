//! What C holds: a pointer to a reader on the heap, which is hidden behind a pointer to bytes, since C may be passed no
//! type that leads to memory of Rust's. In proofs each has the reader as its value. These are the types of `owner` once
//! more, since an exported function takes no type with type parameters.
ghost use Rattle.std.specs.Prelude.{◌≡◌, Option, Some};
ghost use Rattle.std.specs.Borrow.{sem};
ghost use Rattle.std.specs.Coded.{coded_option};
ghost use Rattle.std.specs.Option.{option_map};
ghost use Rattle.obman_c_base.specs.contracts.owned.OwnedReader.{the_row};
ghost use Rattle.obman_c_base.specs.declared.owned.OwnedReader.{OwnedReader};
ghost use Rattle.obman_c_base.specs.Owning.{owner_owns, owns_or_null, place_owns};

use crate::owned::OwnedReader;
use crate::parts::BoxParts;
use std::alloc::Global;
use std::marker::Model;

/// A reader that C owns (`om_reader`).
#[repr(C)]
pub struct ReaderOwner {
    at: *mut u8,
    alloc: Global,
    pub ghost value: { OwnedReader } by { the_row.coded },
}

impl Model for ReaderOwner {
    ghost also_owns = { λ owner. owner_owns the_row owner.alloc owner.at owner.value };
}

/// Where C wants a reader to be: the same bytes, which own a reader once it is there, and what C had there before is
/// nobody's.
#[repr(C)]
#[derive(Drop)]
pub struct ReaderOut {
    at: *mut u8,
    alloc: Global,
    pub ghost value: { Option OwnedReader } by { coded_option the_row.coded },
}

impl Model for ReaderOut {
    ghost also_owns = { λ place. place_owns the_row place.alloc place.at place.value };
}

/// What C ends: the same bytes, a reader, or nothing where they are zeros.
#[repr(C)]
pub struct ReaderTaken {
    at: *mut u8,
    alloc: Global,
    pub ghost value: { Option OwnedReader } by { coded_option the_row.coded },
}

impl Model for ReaderTaken {
    ghost also_owns = { λ ending. owns_or_null the_row ending.alloc ending.at ending.value };
}

// C may pass a reader from thread to thread, as long as one call at a time has it.
unsafe impl Send for ReaderOwner {}

unsafe impl Send for ReaderTaken {}

impl ReaderOwner {
    ghost use Rattle.obman_c_base.specs.Lending.{LendsReader};

    /// The reader, lent.
    pub fn lend(&mut self) -> &mut OwnedReader
        ensures* writes_back { sem 𝓛 (LendsReader self.entry result) }
        ensures value { result.now ≡ self.old.value }
    {
        unsafe { &mut *(self.at as *mut OwnedReader) }
    }
}

impl ReaderOut {
    /// A place with the reader of a box.
    pub fn of(owned: Box<OwnedReader>) -> ReaderOut
        ensures { result.value ≡ Some owned.value }
    {
        ReaderOut::of_parts(BoxParts::of(owned))
    }

    fn of_parts(parts: BoxParts<OwnedReader, Global>) -> ReaderOut
        ensures { result.value ≡ Some parts.value }
    {
        let BoxParts { at, alloc } = parts;
        ReaderOut {
            at: at as *mut u8,
            alloc,
        }
    }
}

impl ReaderTaken {
    /// What owns the reader, where there is one.
    pub fn owner(self) -> Option<BoxParts<OwnedReader, Global>>
        ensures { option_map (λ owner. owner.value) result ≡ self.value }
    {
        let ReaderTaken { at, alloc } = self;
        if at.is_null() {
            None
        } else {
            Some(BoxParts {
                at: at as *mut OwnedReader,
                alloc,
            })
        }
    }
}
