//! When a node that is down is started again.

ghost use Rattle.std.specs.Prelude.{◌≡◌, ◌≤◌, ◌*◌, min};

/// The seconds for which a node is down before it is started again, at first.
const FIRST_SECONDS: u64 = 1;

/// The most seconds between two tries; and after as many in which a node stood, the next time begins with the first wait again.
const MOST_SECONDS: u64 = 60;

/// How long a node that is down waits until it is started again: a second at first, and twice as long after each try, up to a
/// minute, whether the node stood in between or not, unless it stood for a minute.
#[derive(Clone, Copy)]
pub(crate) struct Backoff {
    /// After how many seconds it is started again.
    wait: u64,
    /// For how many of these it has been down.
    waited: u64,
    /// For how many seconds it has stood.
    stood: u64,
    ghost bounded: { wait ≤ 60 },
}

impl Backoff {
    ghost use Rattle.serve_command.specs.Backoff.{Passes, Stands};

    /// That of a node which has never been down.
    pub(crate) fn new() -> Backoff
        ensures wait { result.wait ≡ 1 }
        ensures waited { result.waited ≡ 0 }
    {
        Backoff {
            wait: FIRST_SECONDS,
            waited: 0,
            stood: 0,
        }
    }

    /// A second more, at the end of which the node is down or not: whether it is to be started again now.
    pub(crate) fn is_due(&mut self, is_down: bool) -> bool
        ensures { Passes self.old self.new is_down result }
    {
        if !is_down {
            self.stand();
            return false;
        }
        self.stood = 0;
        self.waited = self.waited.saturating_add(1);
        if self.waited < self.wait {
            return false;
        }
        self.waited = 0;
        self.wait = (2 * self.wait).min(MOST_SECONDS);
        true
    }

    // A second more in which the node stood.
    fn stand(&mut self)
        ensures { Stands self.old self.new }
    {
        self.waited = 0;
        self.stood = self.stood.saturating_add(1);
        if self.stood >= MOST_SECONDS {
            self.wait = FIRST_SECONDS;
        }
    }
}
