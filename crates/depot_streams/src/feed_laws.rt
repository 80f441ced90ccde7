//! What holds of all feeds. Each law is a function that does nothing; its contract is the law.
ghost use Rattle.std.specs.Prelude.{◌≡◌, ◌++◌, ℕ, List, None, Result};
ghost use Rattle.depot_base.specs.declared.record.Record.{Record};
ghost use Rattle.depot_model.specs.checks.Checks.{Setting};
ghost use Rattle.depot_model.specs.exchange.Feeding.{Feeding, report_of};
ghost use Rattle.depot_streams.specs.declared.feed_error.FeedError.{FeedError};
ghost use Rattle.depot_streams.specs.Pieces.{Stream, Feeds, FeedsBoth, stream_of, at_work, report_of_stream};

/// Two pieces, one right after the other, make of a stream and a journal what both together would, whatever the second
/// one's answer but `Stopped`. So it doesn't matter how a stream was cut.
pub fn pieces_are_one()
    ensures { (here : Setting) (s : Feeding) (a b : List ℕ) (result : Result (Unit {0}) FeedError) (S : Stream) (J : List Record) → FeedsBoth here s a b result S J → Feeds here s (a ++ b) result S J }
{}

/// What a feed keeps is enough: it determines the report of the feed at work, and with the journal of its node the feed
/// itself, as long as it isn't closed.
pub fn streams_tell_all()
    ensures report { (s : Feeding) → report_of_stream (stream_of s) ≡ report_of s }
    ensures whole { (s : Feeding) → s.closed ≡ None → at_work (stream_of s) s.journal ≡ s }
{}
