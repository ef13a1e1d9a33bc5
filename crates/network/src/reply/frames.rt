//! The frames that one reply sends.

ghost use Rattle.std.specs.Prelude.{◌≡◌, ◌+◌, ◌≤◌, ◌++◌, ◌∷◌, [], length, option_to_list, option_map, IsOk, OnOk};
ghost use Rattle.std.specs.Prelude.{OnErr};

use mac_frame::{NoMemory, Octets};
use std::alloc::Global;
use std::collections::VecDeque;
use std::marker::Model;

/// Frames in order. Contracts see a list of octet strings. The first one stands here itself, so that a reply of one
/// frame takes no memory beside that of the frame.
#[derive(Debug, Drop)]
pub struct Frames {
    first: Option<Octets>,
    others: Vec<Octets>,
}

impl Model for Frames {
    ghost use Rattle.std.specs.Prelude.{◌≡◌, ◌++◌, List, [], ℕ, None, option_to_list};

    ghost Value = { List (List ℕ) };

    ghost view = { λ f. option_to_list f.first ++ f.others.items };

    ghost invariant = { λ f. f.first ≡ None → f.others.items ≡ [] };
}

impl Frames {
    ghost use Rattle.std.specs.VecDeque.{deque_len, deque_capacity};

    /// No frame.
    pub fn new(alloc: Global) -> Frames
        ensures { result ≡ [] }
    {
        Frames {
            first: None,
            others: Vec::new(alloc),
        }
    }

    /// This frame alone. It takes no memory.
    pub fn one(alloc: Global, frame: Octets) -> Frames
        ensures { result ≡ frame ∷ [] }
    {
        Frames {
            first: Some(frame),
            others: Vec::new(alloc),
        }
    }

    /// Appends a frame; the first one takes no memory. After `NoMemory` the frames are as they were.
    #[inline(always)]
    pub fn push(&mut self, frame: Octets) -> Result<(), NoMemory>
        ensures ok { OnOk result (self.new ≡ self.old ++ frame ∷ []) }
        ensures err { OnErr result (self.new ≡ self.old) }
        ensures first { self.old ≡ [] → IsOk result }
    {
        if self.first.is_none() {
            self.first = Some(frame);
            return Ok(());
        }
        self.others.push(frame)?;
        Ok(())
    }

    /// The first frame, if there is one, and those after it.
    pub fn parts(&self) -> (Option<&Octets>, &[Octets])
        ensures { option_to_list (option_map (λ frame. frame.now) result.0) ++ result.1.now ≡ self.now }
    {
        (self.first.as_ref(), self.others.as_slice())
    }

    /// The first frame, if there is one. The others are gone.
    pub(crate) fn into_first(self) -> Option<Octets> {
        self.first
    }

    /// Makes room for the frames, and for one at least, after those that wait, which stay as they are. `NoMemory` if
    /// memory ran out.
    #[inline(always)]
    pub fn reserve_in(&self, waiting: &mut VecDeque<Octets>) -> Result<(), NoMemory>
        ensures items { waiting.new.items ≡ waiting.old.items }
        ensures len { deque_len waiting.new ≡ deque_len waiting.old }
        ensures capacity { deque_capacity waiting.old ≤ deque_capacity waiting.new }
        ensures room { OnOk result (deque_len waiting.new + length self.now ≤ deque_capacity waiting.new) }
        ensures one { OnOk result (deque_len waiting.new + 1 ≤ deque_capacity waiting.new) }
    {
        let count = self.others.len().checked_add(1).ok_or(NoMemory)?;
        waiting.reserve(count)?;
        Ok(())
    }

    /// Puts the frames after those that wait, for which there is room.
    #[inline(always)]
    pub fn append_to(self, waiting: &mut VecDeque<Octets>)
        requires { deque_len waiting.old + length self ≤ deque_capacity waiting.old }
        ensures { waiting.new.items ≡ waiting.old.items ++ self }
    {
        let Frames { first, others } = self;
        if let Some(first) = first {
            waiting.push_back_reserved(first);
        }
        for frame in others {
            waiting.push_back_reserved(frame);
        }
    }
}
