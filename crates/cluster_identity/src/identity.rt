//! The identity of a cluster.

ghost use Rattle.std.specs.Prelude.{◌≡◌, ◌↔◌, IfSome, IsSome, IsTrue, length};
ghost use Rattle.cluster_identity.specs.Identities.{is_node_count};

use crate::file_mark::FileMark;

/// What a cluster's folder says of itself.
#[derive(Debug, PartialEq, Eq, Drop)]
pub struct Identity {
    /// How many nodes the cluster has, 3 or 5.
    pub members: u8,
    /// The cluster's name: bytes drawn at random when it first started.
    pub id: [u8; 16],
    /// The mark of each node's file of records, in the order of the nodes' numbers.
    pub files: Vec<FileMark>,
    ghost counted: { IsTrue (is_node_count members) },
    ghost one_each: { length files.items ≡ members },
}

impl Identity {
    /// The identity of a cluster that is named so, of as many nodes as there are marks of their files. `None` where
    /// these are neither 3 nor 5.
    pub fn new(id: [u8; 16], files: Vec<FileMark>) -> Option<Identity>
        ensures made { IsSome result ↔ IsTrue (is_node_count (length files.items)) }
        ensures named { IfSome result (λ identity. identity.id ≡ id) }
        ensures marked { IfSome result (λ identity. identity.files.items ≡ files.items) }
    {
        let members = match files.len() {
            3 => 3,
            5 => 5,
            _ => return None,
        };
        Some(Identity { members, id, files })
    }
}
