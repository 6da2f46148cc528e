//! The words of a request.

use crate::fault::RequestFault;
use std::alloc::Global;

/// The words of a request that are not read yet.
#[derive(Clone, Copy)]
pub struct Words<'a> {
    rest: &'a str,
}

impl<'a> Words<'a> {
    /// The words of this line.
    pub fn new(line: &'a str) -> Words<'a> {
        Words { rest: line }
    }

    /// Whether all words are read.
    pub fn is_empty(&self) -> bool {
        self.rest.is_empty()
    }

    /// The next word, empty where there is none.
    pub fn next(&mut self) -> &'a str {
        let (word, rest) = self.rest.split_once(' ').unwrap_or((self.rest, ""));
        self.rest = rest;
        word
    }

    /// The next word, as a number of 64 bits. No word is no number.
    pub fn number(&mut self) -> Result<u64, RequestFault> {
        match self.next().parse::<u64>() {
            Ok(number) => Ok(number),
            Err(_) => Err(RequestFault::BadRequest),
        }
    }

    /// The next word, as bytes.
    pub fn bytes(&mut self, alloc: Global) -> Result<Vec<u8>, RequestFault> {
        let word = self.next();
        if word == "-" {
            return Ok(Vec::new(alloc));
        }
        match hex::decode(alloc, word) {
            Ok(bytes) => Ok(bytes),
            Err(hex::FromHexError::OutOfMemory) => Err(RequestFault::OutOfMemory),
            Err(_) => Err(RequestFault::BadRequest),
        }
    }
}
