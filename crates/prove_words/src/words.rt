// Words and what they ask for.
ghost use Rattle.std.specs.Prelude.{◌↔◌, ◌∷◌, [], drop, IsTrue};
ghost use Rattle.hoist_words.specs.Request.{words_of, IsFileName};
ghost use Rattle.prove_words.specs.Request.{words_in, IsAskedBy, IsBehind, IsParted};

use hoist_words::number_within;

/// How many nodes a search expands at most where the words don't say it.
const DEFAULT_NODES: u32 = 300_000;

/// The most nodes that the words may say.
const MOST_NODES: u32 = 1_000_000_000;

/// What the words ask for: a proof for the line in `file`, whose search expands at most `nodes` nodes.
#[derive(Clone, Copy, Debug)]
pub struct Asked<'a> {
    pub file: &'a str,
    pub nodes: u32,
}

/// The words behind the program's name, where they are one to three.
#[derive(Clone, Copy, Debug)]
enum Placed<'a> {
    One(&'a str),
    Two(&'a str, &'a str),
    Three(&'a str, &'a str, &'a str),
}

/// A file, and the value of the option, where it is given.
#[derive(Clone, Copy, Debug)]
struct FileWithValue<'a> {
    file: &'a str,
    value: Option<&'a str>,
}

/// The words behind the program's name; None where they are too few or too many.
fn behind<'a>(words: &'a [String]) -> Option<Placed<'a>>
    ensures { IsBehind (drop 1 (words_of words.now)) result }
{
    if words.len() == 2 {
        return Some(Placed::One(words[1].as_str()));
    }
    if words.len() == 3 {
        return Some(Placed::Two(words[1].as_str(), words[2].as_str()));
    }
    if words.len() == 4 {
        return Some(Placed::Three(words[1].as_str(), words[2].as_str(), words[3].as_str()));
    }
    None
}

/// The file and the value of two words, of which one is the option with its value.
fn parted_two<'a>(first: &'a str, last: &'a str) -> Option<FileWithValue<'a>>
    ensures { IsParted (first.entry.now ∷ last.entry.now ∷ []) result }
{
    if let Some(value) = first.strip_prefix("--nodes=") {
        return Some(FileWithValue {
            file: last,
            value: Some(value),
        });
    }
    let value = last.strip_prefix("--nodes=")?;
    Some(FileWithValue {
        file: first,
        value: Some(value),
    })
}

/// The file and the value of three words, of which two in a row are the option and its value.
fn parted_three<'a>(first: &'a str, middle: &'a str, last: &'a str) -> Option<FileWithValue<'a>>
    ensures { IsParted (first.entry.now ∷ middle.entry.now ∷ last.entry.now ∷ []) result }
{
    if first == "--nodes" {
        return Some(FileWithValue {
            file: last,
            value: Some(middle),
        });
    }
    if middle == "--nodes" {
        return Some(FileWithValue {
            file: first,
            value: Some(last),
        });
    }
    None
}

/// The file and the value of the option; None where no words say the name of a file and at most one option.
fn parted<'a>(behind: Placed<'a>) -> Option<FileWithValue<'a>>
    ensures { IsParted (words_in behind.entry) result }
{
    match behind {
        Placed::One(file) => Some(FileWithValue { file, value: None }),
        Placed::Two(first, last) => parted_two(first, last),
        Placed::Three(first, middle, last) => parted_three(first, middle, last),
    }
}

/// Whether a word may be the name of a file: it isn't empty and doesn't begin with a dash.
fn names_file(word: &str) -> bool
    ensures { IsTrue result ↔ IsFileName word.now }
{
    !word.is_empty() && word.as_bytes()[0] != b'-'
}

/// What the words ask for; None exactly where they ask for nothing.
pub fn read_words<'a>(words: &'a [String]) -> Option<Asked<'a>>
    ensures { IsAskedBy (words_of words.now) result }
{
    let parted = parted(behind(words)?)?;
    if !names_file(parted.file) {
        return None;
    }
    let nodes = number_within(parted.value, DEFAULT_NODES, 0, MOST_NODES)?;
    Some(Asked {
        file: parted.file,
        nodes,
    })
}
