//! What holds of all texts of hellos. Each law is a function with an empty body, whose contract is the law.
ghost use Rattle.depot_base.specs.Reading.{IsPrefixFree, IsReadInOneWay};
ghost use Rattle.depot_model.specs.exchange.Hello.{hello};

/// No text of a hello is a prefix of the text of another.
pub fn hellos_are_prefix_free()
    ensures { IsPrefixFree hello }
{}

/// A text is that of one hello, or it is no hello's and its first fault is at one place.
pub fn hellos_are_read_in_one_way()
    ensures { IsReadInOneWay hello }
{}
