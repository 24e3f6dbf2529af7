// Numbers of processes and of threads, from 1 on.
ghost use Rattle.std.specs.Prelude.{[], ◌∷◌, ◌≡◌, ◌+◌, ◌-◌, ◌<◌, ◌≤◌, IfOk, None, OnOk, Some, if◌then◌else◌, is_some};
ghost use Rattle.std.specs.Prelude.{false, length, slice_get, slice_index_or, slice_set, true};
ghost use Rattle.ob_codec.specs.Reading.{Gives};
ghost use Rattle.ob_tables.specs.Numbers.{AreNumbers, HasRoom};
ghost use Rattle.ob_tables.specs.Processes.{next_number, used_up};
ghost use Rattle.ob_tables.specs.SavedProcesses.{are_numbers, numbers_at};
ghost use Rattle.ob_tables.specs.Tables.{put};

use least::LeastFree;
use ob_codec::{Cursor, ReadFault, TextFault, read_list};
use std::alloc::{AllocError, Global};

/// What stands at each number that was given: `None` where it is gone. Number 0 is never given.
#[derive(Drop)]
pub(crate) struct Numbers {
    pub(crate) places: Vec<Option<u32>>,
    // Those that live ones have, each less by one.
    taken: LeastFree,
}

/// Makes the number of a place free, where nothing stands there.
fn free_at(places: &[Option<u32>], taken: &mut LeastFree, place: usize)
    requires above { 0 < place }
    requires within { place < length places.now }
    requires taken { slice_get taken.old (place - 1) ≡ Some true }
    ensures { taken.new ≡ (if is_some (slice_index_or places.now place None) then taken.old
        else slice_set taken.old (place - 1) false) }
{
    if places[place].is_none() {
        taken.give_back(place - 1);
    }
}

impl Numbers {
    /// Numbers of which none is given yet.
    pub(crate) fn new(alloc: Global) -> Result<Numbers, AllocError>
        ensures places { IfOk result (λ numbers. numbers.places.items ≡ None ∷ []) }
        ensures are { IfOk result AreNumbers }
    {
        Ok(Numbers {
            places: vec![in alloc; None]?,
            taken: LeastFree::new(alloc),
        })
    }

    /// Reads what stands at each number, from 0 on. [`TextFault::Value`] where more numbers are given than the limit
    /// lets, before any of them is read, or 0 is.
    pub(crate) fn read(
        alloc: Global,
        limit: u32,
        from: &mut Cursor<'_>,
    ) -> Result<Numbers, ReadFault>
        requires { limit ≤ 65536 }
        ensures read { Gives (λ numbers. numbers.places.items) result (numbers_at limit from.old) from.new }
        ensures few { IfOk result (λ numbers. length numbers.places.items ≤ limit + 1) }
        ensures from_one { IfOk result (λ numbers. are_numbers numbers.places.items ≡ true) }
        ensures are { IfOk result AreNumbers }
    {
        let places = read_list::<Option<u32>>(alloc, from, limit + 1)?;
        if places.is_empty() || places[0].is_some() {
            return Err(ReadFault::Text(TextFault::Value));
        }
        let mut taken = LeastFree::with_taken(alloc, places.len() - 1)?;
        for place in 1..places.len() {
            free_at(places.as_slice(), &mut taken, place);
        }
        Ok(Numbers { places, taken })
    }

    /// The number that is given next, once or again.
    pub(crate) fn next(&self, reuse: bool) -> u32
        requires { AreNumbers self.now }
        ensures value { result ≡ next_number reuse self.now.places.items }
        ensures above { 0 < result }
        ensures within { result ≤ length self.now.places.items }
        ensures gone { slice_index_or self.now.places.items result None ≡ None }
    {
        if reuse {
            self.taken.least() as u32 + 1
        } else {
            self.places.len() as u32
        }
    }

    /// What stands at a number.
    pub(crate) fn get(&self, number: u32) -> Option<u32>
        ensures { result ≡ slice_index_or self.now.places.items number None }
    {
        let at = number as usize;
        if at < self.places.len() {
            self.places[at]
        } else {
            None
        }
    }

    /// How many numbers are used up: those that were given or, where they come back, those of live ones.
    #[tactic(auto, using(crate::proofs::NumberLaws::live_counted, crate::proofs::NumberLaws::live_few))]
    pub(crate) fn used_up(&self, reuse: bool) -> u32
        requires { AreNumbers self.now }
        ensures value { result ≡ used_up reuse self.now.places.items }
        ensures within { result < length self.now.places.items }
    {
        if reuse {
            self.taken.taken_count() as u32
        } else {
            self.places.len() as u32 - 1
        }
    }

    /// Makes room for a number, so that giving it takes no memory.
    pub(crate) fn make_room(&mut self, number: u32) -> Result<(), AllocError>
        requires are { AreNumbers self.old }
        requires above { 0 < number }
        requires most { number ≤ 65536 }
        ensures places { self.new.places.items ≡ self.old.places.items }
        ensures are { AreNumbers self.new }
        ensures room { OnOk result (HasRoom self.new number) }
    {
        if number as usize >= self.places.len() {
            self.places.reserve(1)?;
        }
        self.taken.make_room(number as usize - 1)
    }

    /// Gives a number that no live one has. It takes no memory.
    pub(crate) fn give(&mut self, number: u32, value: u32)
        requires are { AreNumbers self.old }
        requires room { HasRoom self.old number }
        requires above { 0 < number }
        requires most { number ≤ 65536 }
        requires next { number ≤ length self.old.places.items }
        requires free { slice_index_or self.old.places.items number None ≡ None }
        ensures places { self.new.places.items ≡ put self.old.places.items number (Some value) }
        ensures are { AreNumbers self.new }
    {
        let at = number as usize;
        if at < self.places.len() {
            self.places[at] = Some(value);
        } else {
            self.places.push_reserved(Some(value));
        }
        self.taken.take(at - 1);
    }

    /// Takes a number away: for good, or until it is given again.
    pub(crate) fn leave(&mut self, number: u32)
        requires { AreNumbers self.old }
        ensures places { self.new.places.items ≡ slice_set self.old.places.items number None }
        ensures are { AreNumbers self.new }
    {
        let at = number as usize;
        if self.get(number).is_some() {
            self.places[at] = None;
            self.taken.give_back(at - 1);
        }
    }
}
