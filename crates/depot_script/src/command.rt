//! What a script lets a node do.

use crate::command_verb::CommandVerb;
use depot_base::{Changes, Hash32, Key, Value};
use depot_lines::FileName;

/// One command.
#[derive(Debug, Drop)]
pub enum Command {
    /// The node writes the value under the key.
    Put { key: Key, value: Value },
    /// The node writes and deletes: 1 to 16 changes, rising strictly by key.
    Puts { changes: Changes },
    /// The node reads the key.
    Get { key: Key },
    /// The node's hello becomes the file.
    Hello { file: FileName },
    /// The node's bundle for the hello in the file `hello` becomes the file.
    Bundle { hello: FileName, file: FileName },
    /// The node takes the stream in the file.
    Take { file: FileName },
    /// The node gives a receipt for the update with this id.
    Receipt { id: Hash32 },
    /// Whether at least `k` nodes, 1 to 256, gave receipts for the update with this id that the node has accepted.
    Settled { id: Hash32, k: u32 },
    /// The node's trace, with the reads of this script so far, becomes the file.
    Export { file: FileName },
    /// The node makes a checkpoint and signs it; its text becomes the file.
    Checkpoint { file: FileName },
    /// The node signs the checkpoint whose text the file has.
    Sign { file: FileName },
    /// A reader is made of the node, below the checkpoint whose text the file has.
    Trim { file: FileName },
    /// The last reader made takes the stream in the file.
    Tgive { file: FileName },
    /// The last reader made reads the key.
    Tget { key: Key },
}

impl Command {
    ghost use Rattle.std.specs.Prelude.{◌≡◌};
    ghost use Rattle.depot_script.specs.Commands.{verb_of_command};

    /// The kind of command that it is.
    pub fn verb(&self) -> CommandVerb
        ensures { result ≡ verb_of_command self.now }
    {
        match self {
            Command::Put { .. } => CommandVerb::Put,
            Command::Puts { .. } => CommandVerb::Puts,
            Command::Get { .. } => CommandVerb::Get,
            Command::Hello { .. } => CommandVerb::Hello,
            Command::Bundle { .. } => CommandVerb::Bundle,
            Command::Take { .. } => CommandVerb::Take,
            Command::Receipt { .. } => CommandVerb::Receipt,
            Command::Settled { .. } => CommandVerb::Settled,
            Command::Export { .. } => CommandVerb::Export,
            Command::Checkpoint { .. } => CommandVerb::Checkpoint,
            Command::Sign { .. } => CommandVerb::Sign,
            Command::Trim { .. } => CommandVerb::Trim,
            Command::Tgive { .. } => CommandVerb::Tgive,
            Command::Tget { .. } => CommandVerb::Tget,
        }
    }
}
