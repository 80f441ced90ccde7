//! The kinds of commands.
ghost use Rattle.std.specs.Prelude.{◌≡◌};
ghost use Rattle.depot_script.specs.Commands.{command_name, command_named};

use depot_lines::spelling::is;

/// A kind of command, with the form of its line.
#[derive(Clone, Copy, Debug, PartialEq, Eq)]
pub enum CommandVerb {
    /// `put KEY VALUE`
    Put,
    /// `puts WRITES`
    Puts,
    /// `get KEY`
    Get,
    /// `hello FILE`
    Hello,
    /// `bundle HELLO FILE`
    Bundle,
    /// `take FILE`
    Take,
    /// `receipt ID`
    Receipt,
    /// `settled ID K`
    Settled,
    /// `export FILE`
    Export,
    /// `checkpoint FILE`
    Checkpoint,
    /// `sign FILE`
    Sign,
    /// `trim FILE`
    Trim,
    /// `tgive FILE`
    Tgive,
    /// `tget KEY`
    Tget,
}

/// Each kind of command once.
pub const COMMAND_VERBS: [CommandVerb; 14] = [
    CommandVerb::Put,
    CommandVerb::Puts,
    CommandVerb::Get,
    CommandVerb::Hello,
    CommandVerb::Bundle,
    CommandVerb::Take,
    CommandVerb::Receipt,
    CommandVerb::Settled,
    CommandVerb::Export,
    CommandVerb::Checkpoint,
    CommandVerb::Sign,
    CommandVerb::Trim,
    CommandVerb::Tgive,
    CommandVerb::Tget,
];

impl CommandVerb {
    /// The first word of its line.
    pub fn name(self) -> &'static str
        ensures { result.now ≡ command_name self }
    {
        match self {
            CommandVerb::Put => "put",
            CommandVerb::Puts => "puts",
            CommandVerb::Get => "get",
            CommandVerb::Hello => "hello",
            CommandVerb::Bundle => "bundle",
            CommandVerb::Take => "take",
            CommandVerb::Receipt => "receipt",
            CommandVerb::Settled => "settled",
            CommandVerb::Export => "export",
            CommandVerb::Checkpoint => "checkpoint",
            CommandVerb::Sign => "sign",
            CommandVerb::Trim => "trim",
            CommandVerb::Tgive => "tgive",
            CommandVerb::Tget => "tget",
        }
    }

    /// The kind of command of this name. `None` exactly when there is none.
    #[tactic(auto, unfolding(crate::specs::Commands::command_named))]
    pub fn named(word: &[u8]) -> Option<CommandVerb>
        ensures { result ≡ command_named word.now }
    {
        COMMAND_VERBS
            .iter()
            .copied()
            .find(|verb| is(word, verb.name()))
    }
}
