//! Readers and writers that fail, and the order of reads and flushes.

use crate::support::{ANSWERS, CONVERSATION, ENDS, answered_within, spelled, tells};
use acceptor_command::acceptor_run;
use std::alloc::{AllocError, Global};
use std::cell::Cell;
use std::io;
use std::io::{Read, Write};
use std::test::Fail;

/// Gives its bytes, and then ends or fails. It looks at each read whether the answers to the frames that it has given
/// have been flushed.
#[derive(Drop)]
struct Watching<'a> {
    bytes: &'a [u8],
    given: usize,
    fails: bool,
    flushed: &'a Cell<usize>,
    is_in_order: bool,
}

impl<'a> Read for Watching<'a> {
    fn read(&mut self, buf: &mut [u8]) -> io::Result<usize> {
        let (_, due) = answered_within(self.given);
        self.is_in_order &= self.flushed.get() == due;
        if self.fails && self.bytes.is_empty() {
            return Err(io::ErrorKind::BrokenPipe.into());
        }
        let count = self.bytes.read(buf)?;
        self.given = self.given.saturating_add(count);
        Ok(count)
    }
}

/// Takes `room` bytes in all and then fails. It takes so many flushes, and then they fail. Where it has a cell, it
/// tells there how many bytes have been flushed.
#[derive(Drop)]
pub(crate) struct Narrow<'a> {
    pub(crate) written: Vec<u8>,
    room: usize,
    flushes: usize,
    flushed: Option<&'a Cell<usize>>,
}

impl<'a> Narrow<'a> {
    pub(crate) fn new(alloc: Global, room: usize, flushes: usize) -> Narrow<'a> {
        Narrow {
            written: Vec::new(alloc),
            room,
            flushes,
            flushed: None,
        }
    }
}

impl<'a> Write for Narrow<'a> {
    fn write(&mut self, buf: &[u8]) -> io::Result<usize> {
        if self.room == 0 {
            return Err(io::ErrorKind::BrokenPipe.into());
        }
        let count = buf.len().min(self.room);
        self.written.extend_from_slice(&buf[..count])?;
        self.room -= count;
        Ok(count)
    }

    fn flush(&mut self) -> io::Result<()> {
        if self.flushes == 0 {
            return Err(io::ErrorKind::BrokenPipe.into());
        }
        self.flushes -= 1;
        if let Some(flushed) = self.flushed {
            flushed.set(self.written.len());
        }
        Ok(())
    }
}

/// The conversation's bytes, and its answers'.
#[derive(Drop)]
struct Spelled {
    input: Vec<u8>,
    answers: Vec<u8>,
}

fn conversation(alloc: Global) -> Result<Spelled, Fail> {
    let input = spelled(alloc, CONVERSATION)?;
    let answers = spelled(alloc, ANSWERS)?;
    Ok(Spelled { input, answers })
}

/// The line of a read or a write that fails at this frame.
fn io_line(alloc: Global, frame: usize) -> Result<String, AllocError> {
    format!(in alloc; "frame {frame}: Io")
}

/// Whether a run over so many bytes of the conversation, behind which the reader fails or ends, has answered each frame
/// before the next read, and has told the end.
fn is_in_order(
    alloc: Global,
    spelled: &Spelled,
    given: usize,
    fails: bool,
) -> Result<bool, AllocError> {
    let flushed = Cell::new(0);
    let mut reader = Watching {
        bytes: spelled.input.get(..given).unwrap_or(&[]),
        given: 0,
        fails,
        flushed: &flushed,
        is_in_order: true,
    };
    let mut writer = Narrow::new(alloc, 48, 4);
    writer.flushed = Some(&flushed);
    let mut said = Vec::new(alloc);
    let status = acceptor_run(alloc, &mut reader, &mut writer, &mut said);
    let (frames, written) = answered_within(given);
    let line = if fails {
        io_line(alloc, frames)?
    } else {
        String::new(alloc)
    };
    let is_told = tells(alloc, status, &said, &line)?;
    let is_answered = spelled.answers.get(..written) == Some(writer.written.as_slice());
    let is_read = reader.is_in_order && reader.given == given;
    Ok(is_told && is_answered && is_read && flushed.get() == written)
}

/// The reader fails behind every number of bytes, and at last it ends behind all of them: the answers to the whole
/// frames have gone out, each before the next read.
#[test]
fn answers_before_the_next_read(rt: HostRuntime) -> Result<(), Fail> {
    let alloc = rt.alloc();
    let spelled = conversation(alloc)?;
    let len = spelled.input.len();
    for given in 0..=len {
        assert!(rt;
            is_in_order(alloc, &spelled, given, true)?,
            "behind {given} bytes"
        );
    }
    assert!(rt; is_in_order(alloc, &spelled, len, false)?);
    Ok(())
}

/// How many answers fit into the room and are flushed, and how much has gone out of them and of the next one.
fn sent_into(room: usize, flushes: usize) -> (usize, usize) {
    let mut sent = 0;
    let mut written = 0;
    for (at, (_, answer_end)) in ENDS.iter().enumerate() {
        if sent == at {
            written = room.min(*answer_end);
            if *answer_end <= room && at < flushes {
                sent = at + 1;
            }
        }
    }
    (sent, written)
}

/// Whether a run over the conversation into a writer of this room, which takes so many flushes, has sent what fits, has
/// told where it failed, and has read no further than the frame whose answer was lost.
fn is_sent(
    alloc: Global,
    spelled: &Spelled,
    room: usize,
    flushes: usize,
) -> Result<bool, AllocError> {
    let mut reader = spelled.input.as_slice();
    let mut writer = Narrow::new(alloc, room, flushes);
    let mut said = Vec::new(alloc);
    let status = acceptor_run(alloc, &mut reader, &mut writer, &mut said);
    let (sent, written) = sent_into(room, flushes);
    let line = if sent < 4 {
        io_line(alloc, sent)?
    } else {
        String::new(alloc)
    };
    let is_told = tells(alloc, status, &said, &line)?;
    let is_flushed = writer.flushes.saturating_add(sent) == flushes;
    let is_written = spelled.answers.get(..written) == Some(writer.written.as_slice());
    // The frame whose answer is lost is the last that was read.
    let read = ENDS.get(sent).map_or(spelled.input.len(), |ends| ends.0);
    let is_read = spelled.input.get(read..) == Some(reader);
    Ok(is_told && is_flushed && is_written && is_read)
}

/// Into writers of every room, with every number of flushes up to one for each answer, and none else.
#[test]
fn tells_a_write_or_a_flush_that_fails(rt: HostRuntime) -> Result<(), Fail> {
    let alloc = rt.alloc();
    let spelled = conversation(alloc)?;
    for number in 0..49 * 5 {
        assert!(rt;
            is_sent(alloc, &spelled, number / 5, number % 5)?,
            "at {number}"
        );
    }
    Ok(())
}

/// Whether the line's first bytes go out, as many as there is room for, and the run fails.
fn is_cut_line(alloc: Global, line: &[u8], room: usize) -> bool {
    let mut reader: &[u8] = &[0x00, 0x00, 0x00, 0x00, 0x02, 0x08, 0x09];
    let mut output = Vec::new(alloc);
    let mut said = Narrow::new(alloc, room, 0);
    let status = acceptor_run(alloc, &mut reader, &mut output, &mut said);
    let is_cut = line.get(..room) == Some(said.written.as_slice());
    status == 1 && output.is_empty() && is_cut
}

#[test]
fn fails_where_its_line_cannot_be_written(rt: HostRuntime) {
    let line = b"flightd: frame 0: BadKind\n";
    for room in 0..=line.len() {
        assert!(rt; is_cut_line(rt.alloc(), line, room), "in {room} bytes");
    }
}
