//! The batches of an upload as they are encoded, one after the other.

ghost use Rattle.std.specs.Prelude.{ℕ, List};
ghost use Rattle.uploads.specs.Parts.{HasLeft, Gives};

use crate::parts::{split_batch, split_part};
use std::marker::Model;

/// The batches of an upload that are still to come, each as its header and its body are encoded. Contracts see the bytes
/// that they stand in.
#[derive(Debug, Drop)]
pub struct EncodedBatches<'a> {
    rest: &'a [u8],
}

impl<'a> Model for EncodedBatches<'a> {
    ghost Value = { List ℕ };

    ghost view = { λ b. b.rest.now };

    ghost invariant = { λ b. (batches : List (List ℕ × List ℕ)) × HasLeft b.rest.now batches };
}

impl<'a> EncodedBatches<'a> {
    /// Those whose fields these bytes are.
    pub fn new(rest: &'a [u8]) -> EncodedBatches<'a>
        requires { (batches : List (List ℕ × List ℕ)) × HasLeft rest.now batches }
        ensures { (batches : List (List ℕ × List ℕ)) → HasLeft rest.now batches → HasLeft result batches }
    {
        EncodedBatches { rest }
    }

    /// The header and the body of the next batch, or `None` where none is left. It takes no memory.
    pub fn next(&mut self) -> Option<(&'a [u8], &'a [u8])>
        ensures { (batches : List (List ℕ × List ℕ)) → HasLeft self.old batches → Gives result self.new batches }
    {
        if self.rest.is_empty() {
            return None;
        }
        let (batch, rest) = split_part(self.rest);
        self.rest = rest;
        Some(split_batch(batch))
    }
}
