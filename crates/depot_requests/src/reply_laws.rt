//! What holds of the texts of replies.
ghost use Rattle.depot_base.specs.Reading.{IsClosedReadInOneWay};
ghost use Rattle.depot_requests.specs.ReplyTexts.{reply_text};

/// A text is that of one reply, or of none, with its first fault at one offset. Called for its clause alone.
pub fn replies_are_read_in_one_way()
    ensures { IsClosedReadInOneWay reply_text }
{}
