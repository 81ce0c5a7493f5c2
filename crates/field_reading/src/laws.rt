// What holds of the readers.
ghost use Rattle.field_reading.specs.Laws.{NumbersAreRead, SignedAreRead, WordsAreRead};

/// What is read has the text that stands there, and no other value has one that agrees with the bytes past it; where
/// reading breaks off, some text begins with all that was read, and none goes on.
pub fn reading()
    ensures numbers { NumbersAreRead }
    ensures signed { SignedAreRead }
    ensures words { WordsAreRead }
{}
