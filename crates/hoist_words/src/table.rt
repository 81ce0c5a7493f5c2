// The table of commands.
ghost use Rattle.std.specs.Prelude.{◌≡◌, MatchOption};
ghost use Rattle.hoist_words.specs.Table.{name_of_command, row_of};

/// The name of a command.
#[derive(Clone, Copy, Debug)]
pub(crate) enum CommandName {
    Solve,
    Check,
    Run,
    Chart,
    Drill,
    Sweep,
    Margin,
    Follow,
    Batch,
}

/// The least and the greatest number that an option takes, and its number where it isn't given.
#[derive(Clone, Copy, Debug)]
pub(crate) struct Limits {
    pub(crate) least: u32,
    pub(crate) most: u32,
    pub(crate) default: u32,
}

/// What stands behind a command.
///
/// - `files`: this many words that are no options, one or two. They are names of files, unless there is a `seed`.
/// - `seed`: the one such word is a number from 0 to this.
/// - `budget`, `workers`, `carriers`, `upto`: an option with these limits; None where the command doesn't take it.
#[derive(Clone, Copy, Debug)]
pub(crate) struct CommandRow {
    pub(crate) files: usize,
    pub(crate) seed: Option<u32>,
    pub(crate) budget: Option<Limits>,
    pub(crate) workers: Option<Limits>,
    pub(crate) carriers: Option<Limits>,
    pub(crate) upto: Option<Limits>,
}

/// Splits of the search.
const SPLITS: Limits = Limits {
    least: 0,
    most: 20000,
    default: 20000,
};

/// Splits of the search of each line of a list.
const LISTED_SPLITS: Limits = Limits {
    least: 0,
    most: 500,
    default: 400,
};

/// Threads that search.
const THREADS: Limits = Limits {
    least: 1,
    most: 64,
    default: 4,
};

/// Carriers of a run.
const RUN_CARRIERS: Limits = Limits {
    least: 1,
    most: 1000,
    default: 10,
};

/// The greatest degree of a sweep.
const DEGREES: Limits = Limits {
    least: 1,
    most: 4,
    default: 4,
};

/// The greatest seed of a drill.
const GREATEST_SEED: u32 = 4_294_967_295;

/// A command that takes two files and no options.
const TWO_FILES: CommandRow = CommandRow {
    files: 2,
    seed: None,
    budget: None,
    workers: None,
    carriers: None,
    upto: None,
};

impl CommandName {
    /// The command of this name.
    pub(crate) fn of(name: &str) -> Option<CommandName>
        ensures { MatchOption result ((c : CommandName) → name.now ≡ name_of_command c → ⊥)
            (λ c. name.now ≡ name_of_command c) }
    {
        match name {
            "solve" => Some(CommandName::Solve),
            "check" => Some(CommandName::Check),
            "run" => Some(CommandName::Run),
            "chart" => Some(CommandName::Chart),
            "drill" => Some(CommandName::Drill),
            "sweep" => Some(CommandName::Sweep),
            "margin" => Some(CommandName::Margin),
            "follow" => Some(CommandName::Follow),
            "batch" => Some(CommandName::Batch),
            _ => None,
        }
    }

    /// The row of the command in the table.
    pub(crate) fn row(self) -> CommandRow
        ensures { result ≡ row_of self }
    {
        match self {
            CommandName::Solve => CommandRow {
                files: 1,
                budget: Some(SPLITS),
                workers: Some(THREADS),
                ..TWO_FILES
            },
            CommandName::Check | CommandName::Chart | CommandName::Margin | CommandName::Follow =>
                TWO_FILES,
            CommandName::Run => CommandRow {
                carriers: Some(RUN_CARRIERS),
                ..TWO_FILES
            },
            CommandName::Drill => CommandRow {
                files: 1,
                seed: Some(GREATEST_SEED),
                ..TWO_FILES
            },
            CommandName::Sweep => CommandRow {
                files: 1,
                budget: Some(SPLITS),
                workers: Some(THREADS),
                upto: Some(DEGREES),
                ..TWO_FILES
            },
            CommandName::Batch => CommandRow {
                files: 1,
                budget: Some(LISTED_SPLITS),
                workers: Some(THREADS),
                ..TWO_FILES
            },
        }
    }
}
