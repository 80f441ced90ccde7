//! What holds of the texts of requests.
ghost use Rattle.depot_base.specs.Reading.{IsClosedReadInOneWay};
ghost use Rattle.depot_requests.specs.RequestTexts.{request_text};

/// A text is that of one request, or of none, with its first fault at one offset. Called for its clause alone.
pub fn requests_are_read_in_one_way()
    ensures { IsClosedReadInOneWay request_text }
{}
