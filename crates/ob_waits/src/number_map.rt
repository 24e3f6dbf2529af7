ghost use Rattle.std.specs.Prelude.{◌≡◌, ◌==◌, ◌<◌, ℕ, None, Some, OnOk, OnErr, true, is_some, if◌then◌else◌};
ghost use Rattle.std.specs.Prelude.{slice_index_or, length, nat_eq};
ghost use Rattle.std.specs.HashMap.{get};
ghost use Rattle.ob_waits.specs.ByThread.{AreApart, IsNumberMap, IsSpread, thread_or, thread_at};

use std::alloc::{AllocError, Global};
use std::collections::HashMap;

/// The number of a wait, and the thread that waits.
#[derive(Clone, Copy)]
pub struct NumberedThread {
    /// The number.
    pub number: u32,
    /// The thread.
    pub thread: u32,
}

/// The threads of waits, by the waits' numbers.
///
/// A number stands at the place that its low bits give, where it is found at once. Where another one stands there, and
/// there are at most two places for each thread up to the one that waits, the places double. Else that one goes to a
/// hash map: the number of a wait that lasted while as many later ones were given as there are places.
#[derive(Drop)]
pub struct NumberMap {
    /// The low bits: one less than there are places, once there are any.
    pub mask: usize,
    /// The places.
    pub places: Vec<Option<NumberedThread>>,
    /// The threads of the numbers that stand at no place.
    pub overflow: HashMap<u32, u32>,
    /// Where memory comes from.
    pub alloc: Global,
}

/// Whether a number stands at a place.
fn is_at_place(places: &[Option<NumberedThread>], at: usize, number: u32) -> bool
    ensures value { result ≡ is_some (thread_or number (slice_index_or places.now at None) None) }
    ensures within { result ≡ true → at < length places.now }
{
    if at < places.len() {
        return match places[at] {
            Some(entry) => entry.number == number,
            None => false,
        };
    }
    false
}

// What seldom comes stands apart, so that the rest is inlined.
#[cold]
fn get_overflow(overflow: &HashMap<u32, u32>, number: u32) -> Option<u32>
    ensures { result ≡ get nat_eq overflow.now number }
{
    overflow.get(&number).copied()
}

#[cold]
fn put_overflow(overflow: &mut HashMap<u32, u32>, entry: NumberedThread) -> Result<(), AllocError>
    ensures ok { OnOk result ((n : ℕ) → get nat_eq overflow.new n
        ≡ thread_or n (Some entry) (get nat_eq overflow.old n)) }
    ensures err { OnErr result ((n : ℕ) → get nat_eq overflow.new n ≡ get nat_eq overflow.old n) }
{
    overflow.insert(entry.number, entry.thread)?;
    Ok(())
}

#[cold]
fn remove_overflow(overflow: &mut HashMap<u32, u32>, number: u32)
    ensures { (n : ℕ) → get nat_eq overflow.new n ≡ (if number == n then None else get nat_eq overflow.old n) }
{
    let _ = overflow.remove(&number);
}

#[inline(always)]
fn put_at(
    place: &mut Option<NumberedThread>,
    overflow: &mut HashMap<u32, u32>,
    entry: NumberedThread,
) -> Result<(), AllocError>
    ensures placed { OnOk result (place.new ≡ Some entry) }
    ensures moved { OnOk result ((n : ℕ) → get nat_eq overflow.new n
        ≡ thread_or n place.old (get nat_eq overflow.old n)) }
    ensures kept { OnErr result (place.new ≡ place.old) }
    ensures same { OnErr result ((n : ℕ) → get nat_eq overflow.new n ≡ get nat_eq overflow.old n) }
{
    if let Some(old) = *place {
        put_overflow(overflow, old)?;
    }
    *place = Some(entry);
    Ok(())
}

#[inline(always)]
fn make_places(places: &mut Vec<Option<NumberedThread>>, mask: usize) -> Result<(), AllocError>
    ensures made { OnOk result (mask < length places.new.items) }
    ensures same { (i : ℕ) → slice_index_or places.new.items i None ≡ slice_index_or places.old.items i None }
{
    while places.len() <= mask {
        places.push(None)?;
    }
    Ok(())
}

/// Puts what stands at some places at those that its numbers have under another mask.
fn spread(from: &[Option<NumberedThread>], mask: usize, places: &mut Vec<Option<NumberedThread>>)
    requires places { mask < length places.old.items }
    requires free { (i : ℕ) → slice_index_or places.old.items i None ≡ None }
    requires apart { AreApart mask from.now }
    ensures { IsSpread mask from.now places.new.items }
{
    for entry in from {
        if let Some(entry) = *entry {
            places[entry.number as usize & mask] = Some(entry);
        }
    }
}

impl NumberMap {
    pub(crate) fn new(alloc: Global) -> NumberMap
        ensures number_map { IsNumberMap result }
        ensures none { (n : ℕ) → thread_at result n ≡ None }
    {
        NumberMap {
            mask: 63,
            places: Vec::new(alloc),
            overflow: HashMap::new(alloc),
            alloc,
        }
    }

    /// The thread of a number.
    #[inline]
    pub(crate) fn get(&self, number: u32) -> Option<u32>
        ensures { result ≡ thread_at self.now number }
    {
        let at = number as usize & self.mask;
        if at < self.places.len() {
            match self.places[at] {
                Some(entry) if entry.number == number => return Some(entry.thread),
                _ => (),
            }
        }
        get_overflow(&self.overflow, number)
    }

    /// Doubles the places.
    #[cold]
    #[tactic(auto, using(crate::proofs::PlaceLaws::apart_wide))]
    fn widen(&mut self) -> Result<(), AllocError>
        requires number_map { IsNumberMap self.old }
        requires fits { self.old.mask < 8589934592 }
        ensures number_map { IsNumberMap self.new }
        ensures same { (n : ℕ) → thread_at self.new n ≡ thread_at self.old n }
    {
        let mask = self.mask * 2 + 1;
        let mut places = Vec::new(self.alloc);
        make_places(&mut places, mask)?;
        spread(self.places.as_slice(), mask, &mut places);
        self.places = places;
        self.mask = mask;
        Ok(())
    }

    /// Doubles the places where a number's is taken, and there are at most two for each thread up to its own.
    #[inline(always)]
    fn make_way(&mut self, entry: NumberedThread) -> Result<(), AllocError>
        requires { IsNumberMap self.old }
        ensures number_map { IsNumberMap self.new }
        ensures same { (n : ℕ) → thread_at self.new n ≡ thread_at self.old n }
    {
        let at = entry.number as usize & self.mask;
        if self.mask / 2 > entry.thread as usize
            || at >= self.places.len()
            || self.places[at].is_none()
        {
            return Ok(());
        }
        self.widen()
    }

    /// Puts a new number in.
    #[inline(always)]
    pub(crate) fn put(&mut self, entry: NumberedThread) -> Result<(), AllocError>
        requires number_map { IsNumberMap self.old }
        requires free { thread_at self.old entry.number ≡ None }
        ensures number_map { IsNumberMap self.new }
        ensures ok { OnOk result ((n : ℕ) → thread_at self.new n
            ≡ (if entry.number == n then Some entry.thread else thread_at self.old n)) }
        ensures err { OnErr result ((n : ℕ) → thread_at self.new n ≡ thread_at self.old n) }
    {
        self.make_way(entry)?;
        make_places(&mut self.places, self.mask)?;
        let at = entry.number as usize & self.mask;
        put_at(&mut self.places[at], &mut self.overflow, entry)?;
        Ok(())
    }

    /// Takes a number away.
    #[inline(always)]
    pub(crate) fn remove(&mut self, number: u32)
        requires { IsNumberMap self.old }
        ensures number_map { IsNumberMap self.new }
        ensures removed { (n : ℕ) → thread_at self.new n ≡ (if number == n then None else thread_at self.old n) }
    {
        let at = number as usize & self.mask;
        if is_at_place(self.places.as_slice(), at, number) {
            self.places[at] = None;
            return;
        }
        remove_overflow(&mut self.overflow, number);
    }
}
