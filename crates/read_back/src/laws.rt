// What holds of all texts that were written and are read back.
ghost use Rattle.read_back.specs.Laws.{TextIsRead, RulesAreKept, TextIsShort};

/// The text of an answer is read as an answer that says the same: reading it doesn't break off.
pub fn text_is_read()
    ensures { TextIsRead }
{}

/// Where an answer keeps the checker's rules, so does every answer that says the same.
pub fn rules_are_kept()
    ensures { RulesAreKept }
{}

/// The text of an answer is short enough to be read, where its tree has at most 3,000 splits.
pub fn text_is_short()
    ensures { TextIsShort }
{}
