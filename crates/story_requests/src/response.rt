//! The words of an answer.

use crate::fault::RequestFault;
use std::alloc::Global;

/// A line that answers a request, as far as it is made.
#[derive(Drop)]
pub struct Response {
    alloc: Global,
    line: String,
}

impl Response {
    /// A line without a word.
    pub fn new(alloc: Global) -> Response {
        Response {
            alloc,
            line: String::new(alloc),
        }
    }

    /// The line, without its end.
    pub fn as_str(&self) -> &str {
        self.line.as_str()
    }

    /// Puts a word behind the others.
    pub fn word(&mut self, word: &str) -> Result<(), RequestFault> {
        if !self.line.is_empty() {
            self.line.push(' ')?;
        }
        self.line.push_str(word)?;
        Ok(())
    }

    /// Puts a number, in decimal digits.
    pub fn number(&mut self, number: u64) -> Result<(), RequestFault> {
        let digits = format!(in self.alloc; "{number}")?;
        self.word(digits.as_str())
    }

    /// Puts bytes, in hexadecimal digits.
    pub fn bytes(&mut self, bytes: &[u8]) -> Result<(), RequestFault> {
        if bytes.is_empty() {
            return self.word("-");
        }
        let digits = hex::encode(self.alloc, bytes)?;
        self.word(digits.as_str())
    }
}
