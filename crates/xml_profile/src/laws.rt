// What holds of every reader of a document, each on a public call that does nothing.
ghost use Rattle.xml_profile.specs.Laws.{CallsAreOne, CallsBegin};

/// The calls of the bytes fed so far are a function of these bytes alone, in whatever pieces they came.
pub fn calls_are_one()
    ensures { CallsAreOne }
{}

/// The calls so far begin those of each document that begins with the bytes fed.
pub fn calls_begin()
    ensures { CallsBegin }
{}
