//! The numbers among the words, and the folder of a cluster.

ghost use Rattle.std.specs.Prelude.{◌≡◌, ◌<◌, ◌≤◌, ◌^◌, ℕ, MatchOption, option_map};
ghost use Rattle.clap.specs.Words.{Text};
ghost use Rattle.command_line.specs.Numbers.{HasFolder, IsNodes, IsPort, IsWait, Writes, Gives, ServedBy, VersionBy};

use thiserror::Error;

/// How many nodes a cluster has where no words say.
pub const DEFAULT_NODES: u8 = 3;

/// The port of the first node where no words say.
pub const DEFAULT_PORT: u16 = 42_000;

/// The least port that the first node may have.
pub const LEAST_PORT: u16 = 1_024;

/// The last port that the first node may have: there is room behind it for those of the others.
pub const LAST_PORT: u16 = 65_000;

/// How many seconds a put waits to be decided where no words say.
pub const DEFAULT_WAIT: u32 = 60;

/// The most seconds that a put may wait to be decided: those of a day.
pub const LONGEST_WAIT: u32 = 86_400;

/// A cluster that is served.
#[derive(Clone, Copy, Debug, PartialEq, Eq)]
pub struct Served<'a> {
    /// How many nodes it has, 3 or 5.
    pub nodes: u8,
    /// The port of node 0; node k has the port that is k more.
    pub port: u16,
    /// The folder of the nodes' records.
    pub folder: &'a str,
    /// How many seconds a put waits to be decided.
    pub wait: u32,
}

/// What is wrong with a number among the words, or with the folder. Its text says what is allowed.
#[derive(Clone, Copy, Debug, PartialEq, Eq, Error)]
pub enum WordsFault {
    /// The value of `--nodes` is neither 3 nor 5.
    #[error("--nodes takes 3 or 5")]
    Nodes,
    /// The value of `--port` is no port that the first node may have.
    #[error("--port takes a number from 1024 to 65000")]
    Port,
    /// There is no value of `--data`, or an empty one.
    #[error("--data names the folder of the nodes' records")]
    Folder,
    /// The value of `--wait` is no number of seconds that a put may wait.
    #[error("--wait takes a number of seconds from 1 to 86400")]
    Wait,
    /// The version of a table is no number that one has.
    #[error("VERSION is a decimal number from 1 on")]
    Version,
}

/// The cluster that the values of `--nodes`, `--port`, `--data` and `--wait` ask for, where each but the third has its default where
/// it is not there.
///
/// [`WordsFault::Nodes`] is told exactly where the first is no decimal number that is 3 or 5; [`WordsFault::Port`] exactly
/// where it is, and the second is no decimal number from [`LEAST_PORT`] to [`LAST_PORT`]; [`WordsFault::Folder`] exactly
/// where both are, and the third is not there or is empty; and [`WordsFault::Wait`] exactly where all three are as they have to be,
/// and the fourth is no decimal number from 1 to [`LONGEST_WAIT`]. A decimal number is digits alone.
pub fn served_by<'a>(
    nodes: Option<&str>,
    port: Option<&str>,
    folder: Option<&'a str>,
    wait: Option<&str>,
) -> Result<Served<'a>, WordsFault>
    ensures { ServedBy (option_map (λ text. text.now) nodes.entry) (option_map (λ text. text.now) port.entry)
        (option_map (λ text. text.now) folder.entry) (option_map (λ text. text.now) wait.entry) result }
{
    let nodes = nodes_of(nodes).ok_or(WordsFault::Nodes)?;
    let port = port_of(port).ok_or(WordsFault::Port)?;
    let folder = folder_of(folder).ok_or(WordsFault::Folder)?;
    let wait = wait_of(wait).ok_or(WordsFault::Wait)?;
    Ok(Served {
        nodes,
        port,
        folder,
        wait,
    })
}

/// The version's number that this text writes in decimal digits. It is [`WordsFault::Version`] exactly where it writes none,
/// or 0, or one of 2^64 or more.
pub fn version_by(text: &str) -> Result<u64, WordsFault>
    ensures { VersionBy text.now result }
{
    match number_of(text) {
        Some(number) if number > 0 => Ok(number),
        _ => Err(WordsFault::Version),
    }
}

fn nodes_of(text: Option<&str>) -> Option<u8>
    ensures { MatchOption result ((n : ℕ) → Gives 3 (option_map (λ text. text.now) text.entry) n → ¬ IsNodes n)
        (λ n. Gives 3 (option_map (λ text. text.now) text.entry) n × IsNodes n) }
{
    let Some(text) = text else {
        return Some(DEFAULT_NODES);
    };
    match number_of(text)? {
        3 => Some(3),
        5 => Some(5),
        _ => None,
    }
}

fn port_of(text: Option<&str>) -> Option<u16>
    ensures { MatchOption result ((n : ℕ) → Gives 42000 (option_map (λ text. text.now) text.entry) n → ¬ IsPort n)
        (λ n. Gives 42000 (option_map (λ text. text.now) text.entry) n × IsPort n) }
{
    let Some(text) = text else {
        return Some(DEFAULT_PORT);
    };
    let port = u16::try_from(number_of(text)?).ok()?;
    if LEAST_PORT <= port && port <= LAST_PORT {
        Some(port)
    } else {
        None
    }
}

fn folder_of<'a>(text: Option<&'a str>) -> Option<&'a str>
    ensures { MatchOption result ((name : Text) → ¬ HasFolder (option_map (λ text. text.now) text.entry) name)
        (λ folder. HasFolder (option_map (λ text. text.now) text.entry) folder.now) }
{
    match text {
        Some(folder) if !folder.is_empty() => Some(folder),
        _ => None,
    }
}

fn wait_of(text: Option<&str>) -> Option<u32>
    ensures { MatchOption result ((n : ℕ) → Gives 60 (option_map (λ text. text.now) text.entry) n → ¬ IsWait n)
        (λ n. Gives 60 (option_map (λ text. text.now) text.entry) n × IsWait n) }
{
    let Some(text) = text else {
        return Some(DEFAULT_WAIT);
    };
    let wait = u32::try_from(number_of(text)?).ok()?;
    if 1 <= wait && wait <= LONGEST_WAIT {
        Some(wait)
    } else {
        None
    }
}

// The number that these digits write, with no sign before them.
fn number_of(digits: &str) -> Option<u64>
    ensures { MatchOption result ((n : ℕ) → Writes digits.now n → 2 ^ 64 ≤ n) (λ n. Writes digits.now n × (n < 2 ^ 64)) }
{
    match digits.as_bytes().first() {
        Some(b'+') => None,
        _ => digits.parse::<u64>().ok(),
    }
}
