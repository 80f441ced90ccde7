//! The kinds of events, and what their labels name.
ghost use Rattle.std.specs.Prelude.{◌≡◌};
ghost use Rattle.depot_schedule.specs.EventLines.{verb_name, verb_named};

use depot_lines::spelling::is;

/// A kind of event, with the form of its line.
#[derive(Clone, Copy, Debug, PartialEq, Eq)]
pub enum Verb {
    /// `put N KEY VALUE`
    Put,
    /// `puts N WRITES`
    Puts,
    /// `get N KEY`
    Get,
    /// `hello N LABEL`
    Hello,
    /// `bundle N HELLO LABEL`
    Bundle,
    /// `give N LABEL` or `give N LABEL SIZE`
    Give,
    /// `restart N`
    Restart,
    /// `update LABEL W SEQ CLOCK PREV KEY VALUE DEPS HISTORY`
    Update,
    /// `updates LABEL W SEQ CLOCK PREV WRITES DEPS HISTORY`
    Updates,
    /// `voucher LABEL W SEQ REFS`
    Voucher,
    /// `proof LABEL KIND A B`
    Proof,
    /// `hollow LABEL V T`
    Hollow,
    /// `judge LABEL`
    Judge,
    /// `raw LABEL HEX`
    Raw,
    /// `cut LABEL FROM START COUNT`
    Cut,
    /// `flip LABEL FROM PLACE`
    Flip,
    /// `join LABEL A B`
    Join,
    /// `stop N K IMAGE`
    Stop,
    /// `receipt N REFS`
    Receipt,
    /// `settled N REF K`
    Settled,
    /// `audit`
    Audit,
    /// `checkpoint N LABEL`
    Checkpoint,
    /// `sign N LABEL`
    Sign,
    /// `trim N LABEL NAME`
    Trim,
    /// `tgive NAME LABEL`
    Tgive,
    /// `tget NAME KEY`
    Tget,
}

/// Each kind of event once.
pub const VERBS: [Verb; 26] = [
    Verb::Put,
    Verb::Puts,
    Verb::Get,
    Verb::Hello,
    Verb::Bundle,
    Verb::Give,
    Verb::Restart,
    Verb::Update,
    Verb::Updates,
    Verb::Voucher,
    Verb::Proof,
    Verb::Hollow,
    Verb::Judge,
    Verb::Raw,
    Verb::Cut,
    Verb::Flip,
    Verb::Join,
    Verb::Stop,
    Verb::Receipt,
    Verb::Settled,
    Verb::Audit,
    Verb::Checkpoint,
    Verb::Sign,
    Verb::Trim,
    Verb::Tgive,
    Verb::Tget,
];

impl Verb {
    /// The first word of its line.
    pub fn name(self) -> &'static str
        ensures { result.now ≡ verb_name self }
    {
        match self {
            Verb::Put => "put",
            Verb::Puts => "puts",
            Verb::Get => "get",
            Verb::Hello => "hello",
            Verb::Bundle => "bundle",
            Verb::Give => "give",
            Verb::Restart => "restart",
            Verb::Update => "update",
            Verb::Updates => "updates",
            Verb::Voucher => "voucher",
            Verb::Proof => "proof",
            Verb::Hollow => "hollow",
            Verb::Judge => "judge",
            Verb::Raw => "raw",
            Verb::Cut => "cut",
            Verb::Flip => "flip",
            Verb::Join => "join",
            Verb::Stop => "stop",
            Verb::Receipt => "receipt",
            Verb::Settled => "settled",
            Verb::Audit => "audit",
            Verb::Checkpoint => "checkpoint",
            Verb::Sign => "sign",
            Verb::Trim => "trim",
            Verb::Tgive => "tgive",
            Verb::Tget => "tget",
        }
    }

    /// The kind of event of this name. `None` exactly when there is none.
    #[tactic(auto, unfolding(crate::specs::EventLines::verb_named))]
    pub fn named(word: &[u8]) -> Option<Verb>
        ensures { result ≡ verb_named word.now }
    {
        VERBS.iter().copied().find(|verb| is(word, verb.name()))
    }
}

/// What an event makes its label name.
#[derive(Clone, Copy, Debug, PartialEq, Eq)]
pub enum Made {
    /// A signed update.
    Update,
    /// A signed voucher.
    Voucher,
    /// Bytes as they are: given, or cut, flipped or joined of others.
    Plain,
    /// The bytes of a hello, a bundle, a proof or a checkpoint.
    Bytes,
    /// A reader, which is no bytes.
    Reader,
}

/// What a word asks of a label that an event before made.
#[derive(Clone, Copy, Debug, PartialEq, Eq)]
pub enum Wanted {
    /// That it names bytes, of any kind.
    Any,
    /// That it names an update.
    Update,
    /// That it names an update or a voucher.
    Signed,
    /// That it names a voucher.
    Voucher,
    /// That it names plain bytes.
    Plain,
    /// That it names what a voucher may name: an update or plain bytes.
    Vouched,
    /// That it names a reader.
    Reader,
}

impl Wanted {
    ghost use Rattle.std.specs.Prelude.{◌≡◌};
    ghost use Rattle.depot_schedule.specs.EventWords.{is_asked_for, meets};

    /// Whether what a label names is of the needed kind.
    fn is_asked_for(self, made: Made) -> bool
        ensures { result ≡ is_asked_for self made }
    {
        match made {
            Made::Update => match self {
                Wanted::Any => true,
                Wanted::Update => true,
                Wanted::Signed => true,
                Wanted::Voucher => false,
                Wanted::Plain => false,
                Wanted::Vouched => true,
                Wanted::Reader => false,
            },
            Made::Voucher => match self {
                Wanted::Any => true,
                Wanted::Update => false,
                Wanted::Signed => true,
                Wanted::Voucher => true,
                Wanted::Plain => false,
                Wanted::Vouched => false,
                Wanted::Reader => false,
            },
            Made::Plain => match self {
                Wanted::Any => true,
                Wanted::Update => false,
                Wanted::Signed => false,
                Wanted::Voucher => false,
                Wanted::Plain => true,
                Wanted::Vouched => true,
                Wanted::Reader => false,
            },
            Made::Bytes => match self {
                Wanted::Any => true,
                Wanted::Update => false,
                Wanted::Signed => false,
                Wanted::Voucher => false,
                Wanted::Plain => false,
                Wanted::Vouched => false,
                Wanted::Reader => false,
            },
            Made::Reader => match self {
                Wanted::Any => false,
                Wanted::Update => false,
                Wanted::Signed => false,
                Wanted::Voucher => false,
                Wanted::Plain => false,
                Wanted::Vouched => false,
                Wanted::Reader => true,
            },
        }
    }

    /// Whether a label that names this is of the needed kind; one that wasn't made never is.
    pub fn meets(self, made: Option<Made>) -> bool
        ensures { result ≡ meets self made }
    {
        match made {
            None => false,
            Some(made) => self.is_asked_for(made),
        }
    }
}
