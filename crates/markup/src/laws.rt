// Laws of documents.
ghost use Rattle.markup.specs.Escape.{NothingIsRaw};

/// No byte of escaped words begins or ends a mark or the value of an attribute, whatever the words are.
pub fn nothing_is_raw()
    ensures { NothingIsRaw }
{}
