//! What a caller asks, by its number.
ghost use Rattle.std.specs.Prelude.{◌≡◌};
ghost use Rattle.depot_c.specs.Asked.{asked_by};

/// What a handle is asked.
#[derive(Clone, Copy, Debug, PartialEq, Eq)]
pub enum Ask {
    /// How many bytes the answer has.
    Length,
    /// To copy bytes of the answer out, from the number on.
    Copy,
    /// How many bytes the records that are lent have.
    RecordsLength,
    /// To copy bytes of the records that are lent out, from the number on.
    RecordsCopy,
    /// To keep a roster: the input is its text.
    Roster,
    /// To make a key and keep it: the number is the height, the input the seed.
    Key,
    /// To start a node: the number is the node's, the input the bytes of the journal's file.
    Start,
    /// To end the node.
    End,
    /// To let go of all that it keeps.
    Clear,
    /// To have the node do or tell what a message asks: the input is its body.
    Message,
    /// To lend the records of the node from a place on, which is the number.
    Records,
}

/// What each number asks, as bindings/depot.h has them.
const OPERATIONS: [Option<Ask>; 11] = [
    Some(Ask::Length),
    Some(Ask::Copy),
    Some(Ask::RecordsLength),
    Some(Ask::RecordsCopy),
    Some(Ask::Roster),
    Some(Ask::Key),
    Some(Ask::Start),
    Some(Ask::End),
    Some(Ask::Clear),
    Some(Ask::Message),
    Some(Ask::Records),
];

impl Ask {
    /// What a number asks.
    pub fn of(op: u32) -> Option<Ask>
        ensures { result ≡ asked_by op }
    {
        let place = op as usize;
        if place < OPERATIONS.len() {
            OPERATIONS[place]
        } else {
            None
        }
    }
}
