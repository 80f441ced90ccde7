//! How a run ends.
ghost use Rattle.std.specs.Prelude.{◌≡◌};
ghost use Rattle.depot_cli.specs.Statuses.{number_of_status, status_of, status_of_server};

use depot_session::{ScriptEnding, ServerEnding};

/// How a run ends.
#[derive(Clone, Copy, Debug, PartialEq, Eq)]
pub enum Status {
    /// The command did what it says.
    Done,
    /// The words are no command.
    Words,
    /// A file that the words name, or one that a script opens, signs, trims by or takes, isn't in its grammar; or the
    /// input is no request.
    Input,
    /// A file isn't on the shelf, or the shelf failed.
    Shelf,
    /// The disk failed.
    Disk,
    /// The sink failed: a prefix of the text went out.
    Sink,
    /// No memory was found.
    Memory,
    /// The text convicts no node.
    NoProof,
    /// A node met a limit.
    Limit,
    /// A log or journal isn't lawful.
    NotLawful,
    /// The node, its key or a roster is another one; so is that of a script's hello or checkpoint.
    Identity,
    /// What nodes did doesn't keep the headline: an audit found what fails first.
    Broken,
    /// The source failed.
    Source,
}

impl Status {
    /// How the run of a script ends, as a status.
    pub fn of(ending: ScriptEnding) -> Status
        ensures { result ≡ status_of ending }
    {
        match ending {
            ScriptEnding::Done => Status::Done,
            ScriptEnding::Input => Status::Input,
            ScriptEnding::Shelf => Status::Shelf,
            ScriptEnding::Disk => Status::Disk,
            ScriptEnding::Sink => Status::Sink,
            ScriptEnding::Memory => Status::Memory,
            ScriptEnding::Limit => Status::Limit,
            ScriptEnding::NotLawful => Status::NotLawful,
            ScriptEnding::Identity => Status::Identity,
        }
    }

    /// How the run of a server ends, as a status.
    pub fn of_server(ending: ServerEnding) -> Status
        ensures { result ≡ status_of_server ending }
    {
        match ending {
            ServerEnding::Done => Status::Done,
            ServerEnding::Memory => Status::Memory,
            ServerEnding::Source => Status::Source,
            ServerEnding::Disk => Status::Disk,
            ServerEnding::Sink => Status::Sink,
            ServerEnding::Input { .. } => Status::Input,
            ServerEnding::NotLawful => Status::NotLawful,
            ServerEnding::Identity => Status::Identity,
        }
    }

    /// The exit status of the program.
    pub fn number(self) -> u8
        ensures { result ≡ number_of_status self }
    {
        match self {
            Status::Done => 0,
            Status::Words => 1,
            Status::Input => 2,
            Status::Shelf => 3,
            Status::Disk => 4,
            Status::Sink => 5,
            Status::Memory => 6,
            Status::NoProof => 7,
            Status::Limit => 8,
            Status::NotLawful => 9,
            Status::Identity => 10,
            Status::Broken => 11,
            Status::Source => 13,
        }
    }
}
