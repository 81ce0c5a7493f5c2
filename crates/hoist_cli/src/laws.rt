// What holds of any run, and of any two.
ghost use Rattle.hoist_cli.specs.Complete.{Completeness};
ghost use Rattle.hoist_cli.specs.Laws.{WorkersDoNotMatter};

/// However many workers `solve` is given, a file and a budget give one text: two runs with the same words but for
/// `--workers`, over shelves that tell the same files, print the same and end with the same status, but where a read or
/// a write failed or there was no memory.
pub fn workers_do_not_matter()
    ensures { WorkersDoNotMatter }
{}

/// Where the words ask for something, the files that it reads are told, within their limits and what it needs (a valid
/// line, and an answer to it, or a log of it, or a list of files), and no read and no write failed, `hoist` ends with
/// one of the statuses that the command has: `solve` with that of the verdict of the search, `sweep` with `Done`,
/// `Negative` or `Unfinished`, `check`, `run`, `chart`, `margin` and `follow` with `Done` or `Negative`, `drill` and
/// `batch` with `Done`; or it wanted memory.
pub fn completeness()
    ensures { Completeness }
{}
