//! A script: calls of clients, and how many nodes there are.

ghost use Rattle.std.specs.Prelude.{◌≡◌};
ghost use Rattle.run_files.specs.ScriptFile.{node_count};

use ballots::Members;
use table_types::Ticket;
use traces::TableText;
use uploads::Upload;

/// How many nodes there are.
#[derive(Clone, Copy, Debug, PartialEq, Eq)]
pub enum ClusterSize {
    /// Three nodes, numbered 0 to 2.
    Three,
    /// Five nodes, numbered 0 to 4.
    Five,
}

impl ClusterSize {
    /// So many nodes, as those who agree.
    pub fn members(self) -> Members
        ensures { result ≡ node_count self }
    {
        let count = match self {
            ClusterSize::Three => 3,
            ClusterSize::Five => 5,
        };
        Members::new(count).unwrap()
    }
}

/// What a client asks.
#[derive(Debug, Drop)]
pub enum CallRequest {
    /// It uploads.
    Put(Upload),
    /// It asks for a version of a table.
    Get(Ticket),
    /// It asks what is told of the table of this name.
    Info(TableText),
}

/// A call of a client.
#[derive(Debug, Drop)]
pub struct ScriptCall {
    /// The number of the node that is called, from 0 on.
    pub node: u8,
    /// What it is asked.
    pub asked: CallRequest,
}

/// Calls of clients, one after the other, to the nodes of a cluster.
#[derive(Debug, Drop)]
pub struct Script {
    /// How many nodes there are.
    pub nodes: ClusterSize,
    /// The calls, in order. Each is of a node whose number is below that.
    pub calls: Vec<ScriptCall>,
}
