// Laws on line files, each the contract of a call that does nothing.
ghost use Rattle.line_text.specs.File.{LineFilesAreRead};
ghost use Rattle.line_text.specs.Written.{WrittenLinesAreRead};

/// Reading gives a line exactly where the bytes are a file of it.
pub fn line_files_are_read()
    ensures { LineFilesAreRead }
{}

/// The text of a line is read as this line.
pub fn written_lines_are_read()
    ensures { WrittenLinesAreRead }
{}
