//! What holds of messages.
ghost use Rattle.std.specs.Prelude.{◌≡◌, List};
ghost use Rattle.std.specs.List.{flat_map};
ghost use Rattle.depot_source.specs.Messages.{AreMessages, Message, text_of_message};

/// Bytes are the texts of at most one list of messages. Called for its clause alone.
#[tactic(auto, using(crate::proofs::OneReading::messages_are_one))]
pub fn messages_are_read_in_one_way()
    ensures { (ms ns : List Message) → AreMessages ms → AreMessages ns → flat_map text_of_message ms ≡ flat_map text_of_message ns → ms ≡ ns }
{}
