//! What the meaning of the words promises beyond single calls.
ghost use Rattle.hoist_words.specs.Laws.{OneRequest};

/// Words ask for one request at most: not for two commands, nor for one command with two different lists of files or
/// with different numbers.
pub fn one_request()
    ensures { OneRequest }
{}
