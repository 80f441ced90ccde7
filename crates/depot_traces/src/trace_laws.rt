//! What holds of all texts of traces. Each law is a function with an empty body, whose contract is the law.
ghost use Rattle.depot_base.specs.Reading.{IsPrefixFree, IsReadInOneWay};
ghost use Rattle.depot_traces.specs.TraceTexts.{trace_text};

/// No text of a trace is a prefix of the text of another.
pub fn traces_are_prefix_free()
    ensures { IsPrefixFree trace_text }
{}

/// A text is that of one trace, or it is no trace's and its first fault is at one place.
pub fn traces_are_read_in_one_way()
    ensures { IsReadInOneWay trace_text }
{}
