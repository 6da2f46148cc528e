//! Connections in memory.

use client_connections::{Connect, ConnectFault};
use std::alloc::Global;
use std::collections::VecDeque;
use std::net::SocketAddrV4;
use std::test::Fail;

/// Connections, each of which is answered by the next of these texts; where there is none, the server can't be reached.
#[derive(Drop)]
pub(crate) struct Scripted {
    answers: VecDeque<VecDeque<u8>>,
    /// The ports of the addresses, as they were opened.
    pub(crate) ports: Vec<u16>,
    /// What was sent over each connection.
    pub(crate) sent: Vec<Vec<u8>>,
    /// How many bytes of the answers were not read.
    pub(crate) left: usize,
}

impl Scripted {
    /// Connections that are answered by these texts, in hexadecimal digits.
    pub(crate) fn new(alloc: Global, answers: &[&str]) -> Result<Scripted, Fail> {
        let mut texts = VecDeque::new(alloc);
        for digits in answers {
            let Ok(bytes) = hex::decode(alloc, digits.as_bytes()) else {
                return Err(Fail::from("no digits"));
            };
            texts.push_back(VecDeque::from(bytes))?;
        }
        Ok(Scripted {
            answers: texts,
            ports: Vec::new(alloc),
            sent: Vec::new(alloc),
            left: 0,
        })
    }

    /// Connections that are answered by these texts, and one more, which is not answered.
    pub(crate) fn with_one_more(alloc: Global, answers: &[Vec<u8>]) -> Result<Scripted, Fail> {
        let mut connect = Scripted::new(alloc, &[])?;
        for answer in answers {
            connect.answers.push_back(VecDeque::from(answer.clone()?))?;
        }
        connect.answers.push_back(VecDeque::new(alloc))?;
        Ok(connect)
    }
}

impl Connect for Scripted {
    ghost use Rattle.std.specs.Prelude.{None};

    type Input = VecDeque<u8>;

    type Output = Vec<u8>;

    ghost log = { λ _. None };

    fn open(
        &mut self,
        alloc: Global,
        address: SocketAddrV4,
    ) -> Result<(VecDeque<u8>, Vec<u8>), ConnectFault> {
        if self.ports.push(address.port()).is_err() {
            return Err(ConnectFault::OutOfMemory);
        }
        match self.answers.pop_front() {
            Some(answer) => Ok((answer, Vec::new(alloc))),
            None => Err(ConnectFault::Connect),
        }
    }

    fn close(&mut self, input: VecDeque<u8>, output: Vec<u8>) {
        self.left = self.left.saturating_add(input.len());
        let _ = self.sent.push(output);
    }
}
