//! What belongs to one node besides its seat.

ghost use Rattle.std.specs.Prelude.{◌≡◌};
ghost use Rattle.std.specs.Option.{IfSome};

use crate::settled::Settled;
use agreement::Refusal;
use crossbeam_channel::Sender;
use node_worker::{Note, PutId};
use seats::SeatFault;
use slab::Slab;
use std::alloc::{AllocError, Global};
use std::sync::{Mutex, Wait};
use uploads::Upload;

/// How a put that waits ends.
pub type Ending = Result<Settled, SeatFault>;

/// A put whose outcome is not known yet, and where it is told.
#[derive(Drop)]
struct Waiting {
    number: u64,
    upload: Upload,
    reply: Sender<Ending>,
}

/// The puts that wait at a node, numbered as they came.
#[derive(Drop)]
struct Puts {
    next: u64,
    waiting: Slab<Waiting>,
}

/// Where the worker of a node hears, and the puts that wait at the node.
#[derive(Drop)]
pub(crate) struct Desk {
    notes: Sender<Note>,
    puts: Mutex<Puts>,
}

impl Desk {
    /// A desk where nothing waits; its worker reads what is sent there.
    pub(crate) fn new(alloc: Global, notes: Sender<Note>) -> Desk {
        Desk {
            notes,
            puts: Mutex::new(Puts {
                next: 0,
                waiting: Slab::new(alloc),
            }),
        }
    }

    /// Sends the worker a note, and says whether it went. One that finds no memory is lost.
    pub(crate) fn tell<R: Wait>(&self, rt: &R, note: Note) -> bool {
        self.notes.send(rt, note).is_ok()
    }

    /// Has an upload wait; its end is told there. [`AllocError`] says that memory was refused.
    pub(crate) fn begin<R: Wait>(
        &self,
        rt: &R,
        upload: Upload,
        reply: Sender<Ending>,
    ) -> Result<PutId, AllocError> {
        self.puts.lock(rt).begin(upload, reply)
    }

    /// The put waits no more. Gives where its end is told, `None` where it waited no more before.
    pub(crate) fn leave<R: Wait>(&self, rt: &R, put: PutId) -> Option<Sender<Ending>> {
        self.puts.lock(rt).leave(put)
    }

    /// Below which places puts may wait.
    pub(crate) fn places<R: Wait>(&self, rt: &R) -> usize {
        self.puts.lock(rt).places()
    }

    /// The put that waits at this place.
    pub(crate) fn find<R: Wait>(&self, rt: &R, place: usize) -> Option<PutId>
        ensures { IfSome result (λ put. put.place ≡ place) }
    {
        self.puts.lock(rt).find(place)
    }

    /// A copy of the upload of a put, `None` where it waits no more.
    pub(crate) fn upload<R: Wait>(&self, rt: &R, put: PutId) -> Option<Result<Upload, AllocError>> {
        self.puts.lock(rt).upload(put)
    }

    /// Whether any put waits.
    pub(crate) fn waits<R: Wait>(&self, rt: &R) -> bool {
        !self.puts.lock(rt).waiting.is_empty()
    }
}

impl Puts {
    fn begin(&mut self, upload: Upload, reply: Sender<Ending>) -> Result<PutId, AllocError> {
        let number = self.next;
        self.next = number.wrapping_add(1);
        let waiting = Waiting {
            number,
            upload,
            reply,
        };
        match self.waiting.insert(waiting) {
            Ok(place) => Ok(PutId { place, number }),
            Err(refused) => {
                drop(refused);
                Err(AllocError)
            }
        }
    }

    fn leave(&mut self, put: PutId) -> Option<Sender<Ending>> {
        if self.find(put.place) != Some(put) {
            return None;
        }
        let Waiting {
            number: _,
            upload,
            reply,
        } = self.waiting.try_remove(put.place)?;
        drop(upload);
        Some(reply)
    }

    fn places(&self) -> usize {
        if self.waiting.is_empty() {
            0
        } else {
            self.waiting.capacity()
        }
    }

    fn find(&self, place: usize) -> Option<PutId>
        ensures { IfSome result (λ put. put.place ≡ place) }
    {
        let waiting = self.waiting.get(place)?;
        Some(PutId {
            place,
            number: waiting.number,
        })
    }

    fn upload(&self, put: PutId) -> Option<Result<Upload, AllocError>> {
        let waiting = self.waiting.get(put.place)?;
        if waiting.number == put.number {
            Some(waiting.upload.clone())
        } else {
            None
        }
    }
}
