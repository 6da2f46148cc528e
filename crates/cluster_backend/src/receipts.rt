//! The receipts of answers.

ghost use Rattle.std.specs.Prelude.{◌≡◌, ◌↔◌, false, [], All, IsTrue};
ghost use Rattle.cluster_backend.specs.Held.{IsHeldReceipt, KeepsOrLoses};

use node_threads::{Beginning, Journal, Receipt, Retention};
use std::alloc::Global;
use std::marker::Model;
use std::sync::{Mutex, Wait};

/// Where the receipts of answers are kept: each says which entry of the journal has the query and the answer that was
/// given.
pub trait Receipts {
    /// Keeps a receipt.
    fn keep<R: Wait>(&self, rt: &R, receipt: Receipt);
}

/// Keeps none.
#[derive(Clone, Copy, Debug)]
pub struct NoReceipts;

impl Receipts for NoReceipts {
    fn keep<R: Wait>(&self, _rt: &R, receipt: Receipt) {
        drop(receipt);
    }
}

/// Receipts, in the order in which they were kept, and whether one was lost since memory for it was refused.
#[derive(Drop)]
pub struct KeptReceipts {
    receipts: Vec<Receipt>,
    is_short: bool,
}

impl Model for KeptReceipts {
    ghost use Rattle.cluster_backend.specs.Held.{KeptReceipts};

    ghost Value = { KeptReceipts };

    ghost view = { λ k. record { receipts = k.receipts.items; is_short = k.is_short } };
}

impl KeptReceipts {
    /// None yet.
    pub fn new(alloc: Global) -> KeptReceipts
        ensures { result ≡ record { receipts = []; is_short = false } }
    {
        KeptReceipts {
            receipts: Vec::new(alloc),
            is_short: false,
        }
    }

    /// Keeps a receipt. Where memory for it is refused it is lost, which is known from then on.
    pub fn keep(&mut self, receipt: Receipt)
        ensures { KeepsOrLoses self.old receipt self.new }
    {
        if self.receipts.push(receipt).is_err() {
            self.is_short = true;
        }
    }

    /// Whether none was lost and the journal holds the entry of each. A journal that forgets holds none.
    pub fn are_held<J: Beginning, M: Retention>(&self, journal: &Journal<J, M>) -> bool
        ensures { IsTrue result ↔ (self.now.is_short ≡ false) × All (IsHeldReceipt journal.now) self.now.receipts }
    {
        !self.is_short && all_are_held(journal, &self.receipts)
    }
}

/// Keeps all.
#[derive(Drop)]
pub struct AllReceipts {
    kept: Mutex<KeptReceipts>,
}

impl AllReceipts {
    /// No receipt yet.
    pub fn new(alloc: Global) -> AllReceipts {
        AllReceipts {
            kept: Mutex::new(KeptReceipts::new(alloc)),
        }
    }

    /// Whether the journal holds the entry of each receipt that was kept, and none was lost for want of memory.
    pub fn are_confirmed<R: Wait, J: Beginning, M: Retention>(
        &self,
        rt: &R,
        journal: &Journal<J, M>,
    ) -> bool {
        self.kept.lock(rt).are_held(journal)
    }
}

impl Receipts for AllReceipts {
    fn keep<R: Wait>(&self, rt: &R, receipt: Receipt) {
        self.kept.lock(rt).keep(receipt);
    }
}

/// Whether the journal holds the entries of all of these receipts. One that forgets holds none.
pub fn all_are_held<J: Beginning, M: Retention>(
    journal: &Journal<J, M>,
    receipts: &[Receipt],
) -> bool
    ensures { IsTrue result ↔ All (IsHeldReceipt journal.now) receipts.now }
{
    receipts.iter().all(|receipt| is_held(journal, receipt))
}

// Whether the journal holds the entry of this receipt.
#[tactic(auto, unfolding(crate::specs::Held::IsHeldReceipt))]
fn is_held<J: Beginning, M: Retention>(journal: &Journal<J, M>, receipt: &Receipt) -> bool
    ensures { IsTrue result ↔ IsHeldReceipt journal.now receipt.now }
{
    journal.holds(receipt)
}
