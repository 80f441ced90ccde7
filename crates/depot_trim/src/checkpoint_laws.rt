//! What holds of all texts of checkpoints. Each law is a function that does nothing; its contract is the law.
ghost use Rattle.depot_base.specs.Reading.{IsPrefixFree, IsReadInOneWay};
ghost use Rattle.depot_model.specs.readers.Checkpoints.{checkpoint};

/// No text of a checkpoint begins the text of another.
pub fn checkpoints_are_prefix_free()
    ensures { IsPrefixFree checkpoint }
{}

/// A text is that of one checkpoint, or it is no checkpoint's and its first fault is at one place.
pub fn checkpoints_are_read_in_one_way()
    ensures { IsReadInOneWay checkpoint }
{}
