//! Where journals begin.

use ghost_log::Naming;
use std::marker::Brand;

/// How each node is where a journal of this name begins: with nothing, or as a history left it that went before. Whoever
/// makes a journal picks it with the name.
pub trait Beginning: Naming {
    ghost use Rattle.std.specs.Prelude.{List};
    ghost use Rattle.node_parts.specs.histories.specs.Following.{UpOrDown};

    ghost start: { List UpOrDown };
}

/// The name that a caller has who picks none: nodes start with nothing.
impl Beginning for Brand {
    ghost use Rattle.std.specs.Prelude.{[]};

    ghost start = { [] };
}
