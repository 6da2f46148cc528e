//! The names of logs.

use std::marker::Brand;

/// Which log it is.
pub trait Naming {
    ghost use Rattle.logbook.specs.Pages.{Book};

    ghost book: { Book };
}

/// The name that a caller has who picks none, or any.
impl Naming for Brand {
    ghost book = { record { number = 0; log_name = 0; cells_name = 0 } };
}
