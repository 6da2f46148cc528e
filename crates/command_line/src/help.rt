//! What the help says of the program, of its commands and of their words.

/// What the program is.
pub(crate) const PROGRAM: &str =
    "A replicated dataset service with the messages of Arrow Flight; with no command, the acceptor";

/// How the program ends.
pub(crate) const PROGRAM_MORE: &str = "\
Example: flightd audit --explain run.json
Exit status: 0 success; 1 a fault, or a recorded run that is unlawful; 2 invalid arguments.
An error is one line on standard error. docs/FORMATS.md has the bytes and the files.";

/// What the acceptor does.
pub(crate) const ACCEPTOR: &str =
    "Answers Paxos messages as node 0 of 3, from standard input to standard output, frame by frame";

/// What the acceptor reads, and how it ends.
pub(crate) const ACCEPTOR_MORE: &str = "\
Example: flightd acceptor < asked.frames > answered.frames
Input: frames on standard input, each of a message of Paxos (docs/FORMATS.md). Each Prepare and Accept is answered.
Exit status: 0 at the end of the input; 1 after a fault; 2 invalid arguments.";

/// What the audit does.
pub(crate) const AUDIT: &str =
    "Says whether a recorded run is one that correct nodes may have sent: lawful or unlawful";

/// What the audit reads, and how it ends.
pub(crate) const AUDIT_MORE: &str = "\
Example: flightd audit --explain run.json
Input: FILE, a JSON object with the number of members and the messages that they sent (docs/FORMATS.md).
Exit status: 0 lawful; 1 unlawful, or a fault; 2 invalid arguments.";

/// What the file of an audit is.
pub(crate) const RUN_FILE: &str = "A recorded run of Paxos messages";

/// What the audit's option asks for.
pub(crate) const EXPLAIN: &str =
    "After unlawful, also prints the first message that breaks a rule, and a line for each rule that it breaks";

/// What the replay does.
pub(crate) const REPLAY: &str =
    "Plays a schedule of events at nodes in memory, and prints a line for each event";

/// What the replay reads, and how it ends.
pub(crate) const REPLAY_MORE: &str = "\
Example: flightd replay schedule.json
Input: FILE, a JSON object with members, slots, uploads and events (docs/FORMATS.md).
Exit status: 0 where every line was written; 1 after a fault; 2 invalid arguments.";

/// What the file of a replay is.
pub(crate) const SCHEDULE_FILE: &str = "A schedule of events";

/// What serving does.
pub(crate) const SERVE: &str =
    "Serves the tables of a cluster, each of its nodes at a port of 127.0.0.1, until it is ended by a signal";

/// Which ports are served, and how it ends.
pub(crate) const SERVE_MORE: &str = "\
Example: flightd serve --data records --resume --nodes 5 --port 42000 serves nodes 0 to 4 at the ports 42000 to 42004.
Output: once all ports are open, a line for each node with its address. Node k keeps its records in DIR/node-k.rec.
With --resume every version that an earlier server acknowledged is served again.
Exit status: 1 after a fault; 2 invalid arguments.";

/// How many nodes are served.
pub(crate) const NODES: &str = "How many nodes the cluster has: 3, the default, or 5";

/// Where they are served.
pub(crate) const PORT: &str =
    "The port of node 0, from 1024 to 65000, where 42000 is the default; node k is k above it";

/// Where the nodes keep their records.
pub(crate) const DATA: &str =
    "The folder of the nodes' records, which is made where it is missing; without --resume it has none yet. \
     It has to be named";

/// How long a put waits.
pub(crate) const WAIT: &str =
    "How long a put waits to be decided, in seconds, from 1 to 86400, where 60 is the default; \
     then it ends as Unavailable, and may still be decided later";

/// What the option to resume asks for.
pub(crate) const RESUME: &str =
    "Goes on over the records that an earlier server left in DIR; in a folder without records it starts anew";

/// What a script does.
pub(crate) const SCRIPT: &str =
    "Makes the calls of a script at a cluster of its own, and prints a line for each call";

/// What a script reads, and how it ends.
pub(crate) const SCRIPT_MORE: &str = "\
Example: flightd script calls.json
Input: FILE, a JSON object with the number of nodes and the calls.
Exit status: 0 where the receipts of all answers are right; 1 where not, or after a fault; 2 invalid arguments.";

/// What the file of a script is.
pub(crate) const SCRIPT_FILE: &str = "A script of calls";

/// What showing records does.
pub(crate) const RECORDS: &str =
    "Prints the records that a node keeps in a file, or what a resumed server would serve of a folder";

/// What is shown, and how it ends.
pub(crate) const RECORDS_MORE: &str = "\
Example: flightd records data/node-0.rec prints a line for each record; flightd records data says of all nodes' files how
many slots are decided, which tables and versions they make, and which slots are open. Nothing is written or changed.
Input: FILE, the file of a node that was served, or the folder with the files of all (docs/FORMATS.md).
Exit status: 0 where all was printed; 1 after a fault, as a file that is damaged; 2 invalid arguments.";

/// What the file of records is.
pub(crate) const RECORDS_FILE: &str = "A node's file of records, or the folder of a cluster";

/// What a put does.
pub(crate) const PUT: &str =
    "Puts the rows of a file into a table at a server, and prints the upload's id and the version that it made";

/// What a put reads, and how it ends.
pub(crate) const PUT_MORE: &str = "\
Example: flightd put 127.0.0.1:42000 cities cities.jsonl --id 000102030405060708090a0b0c0d0e0f
Input: FILE, rows as lines of JSON (docs/FORMATS.md).
Exit status: 0 where the server has them; the status of a refusal, where the server refuses (docs/FORMATS.md); 1 after another fault; 2 invalid arguments.";

/// Where a server is.
pub(crate) const ADDRESS: &str = "Where the server is, as HOST:PORT";

/// What names a table.
pub(crate) const TABLE: &str = "The table's name: 1 to 64 of A-Z, a-z, 0-9, _, . and -";

/// What the file of a put is.
pub(crate) const ROWS_FILE: &str = "A file of rows, or - for standard input";

/// What names an upload.
pub(crate) const ID: &str =
    "The upload's id, 32 lower-case hexadecimal digits; random if omitted. The same upload put again with its id counts once";

/// What the schema of a put is.
pub(crate) const SCHEMA: &str =
    "The schema of the rows, as \"shop: utf8 not null, sold: int64\"; without it, one that is made of them";

/// What a get does.
pub(crate) const GET: &str =
    "Prints the rows of a table at a server, of its latest version or of another";

/// What a get prints, and how it ends.
pub(crate) const GET_MORE: &str = "\
Example: flightd get 127.0.0.1:42000 cities 2
Output: rows as lines of JSON (docs/FORMATS.md).
Exit status: 0 where every row was printed; the status of a refusal, where the server refuses (docs/FORMATS.md); 1 after another fault; 2 invalid arguments.";

/// Which version is got.
pub(crate) const VERSION: &str = "The version's number, from 1 on; without it, the latest version";

/// From where a version is got.
pub(crate) const ALL_LOCATIONS: &str =
    "Asks each location that the server names, and not the server alone";

/// What listing does.
pub(crate) const LIST: &str = "Prints the tables of a server, a line for each";

/// How listing ends.
pub(crate) const LIST_MORE: &str = "\
Example: flightd list 127.0.0.1:42000
Exit status: 0 where every line was printed; the status of a refusal, where the server refuses (docs/FORMATS.md); 1 after another fault; 2 invalid arguments.";

/// What is told of a table.
pub(crate) const INFO: &str =
    "Prints what a server tells of a table: its latest version, its rows, its bytes, its locations and its fields";

/// How telling of a table ends.
pub(crate) const INFO_MORE: &str = "\
Example: flightd info 127.0.0.1:42000 cities
Exit status: 0 where it was printed; the status of a refusal, where the server refuses (docs/FORMATS.md); 1 after another fault; 2 invalid arguments.";
