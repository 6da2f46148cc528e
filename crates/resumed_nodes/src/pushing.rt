//! A node that is put behind others.

ghost use Rattle.std.specs.Prelude.{◌≡◌, ◌∷◌, ◌++◌, [], OnErr, OnOk};

use stable_records::Stable;
use std::alloc::AllocError;
use stored_nodes::StoredNode;

/// Puts a node behind the others. [`AllocError`] says that memory was refused; the others stay, and the node is let go.
pub(crate) fn push<S: Stable + Drop>(
    nodes: &mut Vec<StoredNode<S>>,
    node: StoredNode<S>,
) -> Result<(), AllocError>
    ensures added { OnOk result (nodes.new.items ≡ nodes.old.items ++ node ∷ []) }
    ensures same { OnErr result (nodes.new.items ≡ nodes.old.items) }
{
    match nodes.push(node) {
        Ok(()) => Ok(()),
        Err(refused) => {
            drop(refused);
            Err(AllocError)
        }
    }
}
