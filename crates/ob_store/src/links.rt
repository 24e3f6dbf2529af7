use crate::reserved::put_at;
use std::alloc::{AllocError, Global};

// Ends a list: a number past all slots.
const END: u32 = u32::MAX;

/// The neighbours of a slot in its list.
#[derive(Clone, Copy)]
struct Link {
    before: u32,
    next: u32,
}

// A slot in no list.
const ALONE: Link = Link {
    before: END,
    next: END,
};

/// A list of slots for each thread below a limit. Nothing is promised of what it has: it is a hint.
#[derive(Drop)]
pub(crate) struct Links {
    // By thread and by slot, up to the highest that was in a list.
    firsts: Vec<u32>,
    links: Vec<Link>,
}

impl Links {
    /// Lists without a slot. There is room for 8 bytes for each slot and 4 for each thread.
    pub(crate) fn new(alloc: Global, slots: u32, threads: u32) -> Result<Links, AllocError> {
        Ok(Links {
            firsts: Vec::with_capacity(alloc, threads as usize)?,
            links: Vec::with_capacity(alloc, slots as usize)?,
        })
    }

    /// The first slot of a thread's list, or a number past all slots.
    pub(crate) fn first(&self, thread: u32) -> u32 {
        self.firsts.get(thread as usize).copied().unwrap_or(END)
    }

    /// Puts a slot first in a thread's list.
    pub(crate) fn add(&mut self, thread: u32, slot: u32) {
        let next = self.first(thread);
        put_at(&mut self.links, slot, Link { before: END, next }, ALONE);
        if let Some(link) = self.links.get_mut(next as usize) {
            link.before = slot;
        }
        put_at(&mut self.firsts, thread, slot, END);
    }

    /// Takes a slot out of a thread's list.
    pub(crate) fn remove(&mut self, thread: u32, slot: u32) {
        let Some(Link { before, next }) = self.links.get(slot as usize).copied() else {
            return;
        };
        if let Some(link) = self.links.get_mut(before as usize) {
            link.next = next;
        } else if let Some(first) = self.firsts.get_mut(thread as usize) {
            *first = next;
        }
        if let Some(link) = self.links.get_mut(next as usize) {
            link.before = before;
        }
    }
}
