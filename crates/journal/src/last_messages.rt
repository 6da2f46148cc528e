//! The last messages that were sent.

ghost use Rattle.std.specs.Prelude.{◌≡◌, ◌+◌, ◌^◌, ◌<◌, List, [], ◌∷◌, ◌++◌, length, vec_len, IfOk};
ghost use Rattle.std.specs.Option.{option_map};
ghost use Rattle.node_parts.specs.ballots.specs.declared.message.Message.{Message as Sent};
ghost use Rattle.journal.specs.Recalled.{IsEndOf, held_at};

use ballots::Message;
use circular_buffer::HeapCircularBuffer;
use std::alloc::{AllocError, Global};

/// So many messages are held at least, or all where they are fewer.
pub const RECENT_MESSAGES: usize = 65_536;

/// The last messages, behind so many that are held no more.
#[derive(Drop)]
pub(crate) struct LastMessages {
    first: u64,
    messages: HeapCircularBuffer<Message>,
}

impl LastMessages {
    /// None. Room for as many as are held is made at once; [`AllocError`] says that memory was refused.
    pub(crate) fn new(alloc: Global) -> Result<LastMessages, AllocError>
        ensures { IfOk result (λ last. IsEndOf [] last) }
    {
        let messages = HeapCircularBuffer::with_capacity(alloc, RECENT_MESSAGES)?;
        Ok(LastMessages { first: 0, messages })
    }

    /// How many messages there were, of which the last are held.
    pub(crate) fn count(&self) -> u64
        requires { self.now.first + length self.now.messages.items < 2 ^ 63 }
        ensures { result ≡ self.now.first + length self.now.messages.items }
    {
        self.first + self.messages.len() as u64
    }

    /// The message of this number, where it is held.
    pub(crate) fn get(&self, number: u64) -> Option<&Message>
        ensures { (sent : List Sent) → IsEndOf sent self.now
            → option_map (λ message. message.now) result ≡ held_at self.now.first sent number }
    {
        if number < self.first {
            return None;
        }
        self.messages.get((number - self.first) as usize)
    }

    // Puts a message behind the others; the first of those that are held goes where there is no room.
    fn push(&mut self, message: Message)
        requires { self.old.first + length self.old.messages.items < 2 ^ 63 }
        ensures counted { self.new.first + length self.new.messages.items
            ≡ self.old.first + length self.old.messages.items + 1 }
        ensures last { (sent : List Sent) → IsEndOf sent self.old → IsEndOf (sent ++ message ∷ []) self.new }
    {
        let _ = self.messages.len();
        if let Some(gone) = self.messages.push_back(message) {
            drop(gone);
            self.first += 1;
        }
    }

    /// Puts messages behind the others. The first of those that are held go where there is no room.
    pub(crate) fn extend(&mut self, more: Vec<Message>)
        requires { self.old.first + length self.old.messages.items + vec_len more < 2 ^ 63 }
        ensures { (sent : List Sent) → IsEndOf sent self.old → IsEndOf (sent ++ more.items) self.new }
    {
        for message in more {
            self.push(message);
        }
    }
}
