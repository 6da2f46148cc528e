//! What is counted of cells.

ghost use Rattle.std.specs.Prelude.{◌≡◌, ◌+◌, ◌^◌, ◌<◌, ◌||◌, false};
ghost use Rattle.batch_lengths.specs.Tally.{plus as sum_of};

/// What is counted of the cells of a column.
#[derive(Clone, Copy, Debug, PartialEq, Eq)]
pub(crate) struct Counted {
    /// Whether one of them is null.
    pub(crate) has_null: bool,
    /// How many bytes or elements their values have in all, where values may have any number of them.
    pub(crate) total: usize,
}

impl Counted {
    /// Of no cell.
    pub(crate) const NONE: Counted = Counted {
        has_null: false,
        total: 0,
    };

    /// Of these cells and of others.
    pub(crate) fn with(self, others: Counted) -> Counted
        requires { self.total + others.total < 2 ^ 64 }
        ensures nulls { result.has_null ≡ (self.has_null || others.has_null) }
        ensures lengths { result.total ≡ self.total + others.total }
    {
        Counted {
            has_null: self.has_null || others.has_null,
            total: self.total + others.total,
        }
    }

    /// Of these cells and of others, up to the largest number.
    pub(crate) fn plus(self, others: Counted) -> Counted
        ensures { result ≡ sum_of self others }
    {
        Counted {
            has_null: self.has_null || others.has_null,
            total: self.total.saturating_add(others.total),
        }
    }
}
