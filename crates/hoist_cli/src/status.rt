// How a run of the program ends.
ghost use Rattle.std.specs.Prelude.{◌≡◌};
ghost use Rattle.std.specs.Process.{exit_status};
ghost use Rattle.hoist_cli.specs.Exit.{number_of};

use std::process::ExitCode;

/// How a run of the program ends; the number is its exit status.
///
/// - `Done`: the printed answer is optimal, the checked answer is accepted, the legal timetable of the answer was
///   played or drawn, or the drill was done.
/// - `Negative`: the line has no legal timetable up to its greatest period, the checked answer is rejected, or the
///   answer whose timetable was to be played or drawn has none or an illegal one.
/// - `Words`: the words of the program ask for nothing that it does.
/// - `Unfinished`: the budget of splits was spent before the search ended.
/// - `Line`: the file isn't a line file.
/// - `Broken`: the file of the answer isn't the text of an answer to the line.
/// - `Read`, `Write`: a file couldn't be read, the text couldn't be written whole.
/// - `Long`: a file is longer than it may be.
/// - `Memory`: there was no memory.
#[derive(Clone, Copy, Debug, PartialEq, Eq)]
pub enum Status {
    Done = 0,
    Negative = 1,
    Words = 2,
    Unfinished = 3,
    Line = 4,
    Broken = 5,
    Read = 6,
    Write = 7,
    Long = 8,
    Memory = 9,
}

impl Status {
    /// The exit status of the program.
    pub fn exit_code(self) -> ExitCode
        ensures { exit_status result ≡ number_of self }
    {
        ExitCode::from(self as u8)
    }
}
