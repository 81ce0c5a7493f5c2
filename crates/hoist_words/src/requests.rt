// Requests.

/// What the program is asked to do.
///
/// - `Solve`: answer the line of `file`, with a budget of splits, 0 to 20,000, and 1 to 64 workers.
/// - `Check`: check the answer in `answer` to the line of `file`.
/// - `Run`: run the timetable of that answer with 1 to 1,000 carriers.
/// - `Chart`: draw the timetable of that answer.
/// - `Drill`: make the line of `seed` and put it through all of this.
/// - `Sweep`: answer the line of `file` with each degree from 1 to `upto`, 1 to 4.
/// - `Margin`: give the margin of the windows of that answer's timetable.
/// - `Follow`: follow the log in `log` on the machine of the line of `file`.
/// - `Batch`: answer each line that is named in `list`, with a budget of 0 to 500 splits for each.
#[derive(Debug, Drop)]
pub enum Request {
    Solve {
        file: String,
        budget: u32,
        workers: u32,
    },
    Check {
        file: String,
        answer: String,
    },
    Run {
        file: String,
        answer: String,
        carriers: u32,
    },
    Chart {
        file: String,
        answer: String,
    },
    Drill {
        seed: u32,
    },
    Sweep {
        file: String,
        upto: u32,
        budget: u32,
        workers: u32,
    },
    Margin {
        file: String,
        answer: String,
    },
    Follow {
        file: String,
        log: String,
    },
    Batch {
        list: String,
        budget: u32,
        workers: u32,
    },
}
