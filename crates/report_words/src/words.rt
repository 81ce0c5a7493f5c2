// Words and what they ask for.
ghost use Rattle.std.specs.Prelude.{◌↔◌, ◌∷◌, [], drop, IsTrue, IfSome};
ghost use Rattle.hoist_words.specs.Request.{words_of, IsFileName};
ghost use Rattle.report_words.specs.Request.{words_in, IsAskedBy, IsBehind, IsSaidBy};

/// What is printed for an accepted answer.
///
/// - `Page`: one page of HTML.
/// - `Json`: one document of JSON.
#[derive(Clone, Copy, Debug, PartialEq, Eq)]
pub enum Form {
    Page,
    Json,
}

/// What the words ask for: the answer in the file `answer` to the line in `file`, in this form.
#[derive(Clone, Copy, Debug)]
pub struct Asked<'a> {
    pub file: &'a str,
    pub answer: &'a str,
    pub form: Form,
}

/// The words behind the program's name, where they are two or three.
#[derive(Clone, Copy, Debug)]
enum Placed<'a> {
    Two(&'a str, &'a str),
    Three(&'a str, &'a str, &'a str),
}

/// The words behind the program's name; None where they are too few or too many.
fn behind<'a>(words: &'a [String]) -> Option<Placed<'a>>
    ensures { IsBehind (drop 1 (words_of words.now)) result }
{
    if words.len() == 3 {
        return Some(Placed::Two(words[1].as_str(), words[2].as_str()));
    }
    if words.len() == 4 {
        return Some(Placed::Three(words[1].as_str(), words[2].as_str(), words[3].as_str()));
    }
    None
}

/// What three words ask for, of which one is the option.
fn said_by_three<'a>(first: &'a str, middle: &'a str, last: &'a str) -> Option<Asked<'a>>
    ensures { IsSaidBy (first.entry.now ∷ middle.entry.now ∷ last.entry.now ∷ []) result }
{
    let (file, answer) = if first == "--json" {
        (middle, last)
    } else if middle == "--json" {
        (first, last)
    } else if last == "--json" {
        (first, middle)
    } else {
        return None;
    };
    Some(Asked {
        file,
        answer,
        form: Form::Json,
    })
}

/// What the words behind the program's name ask for, if the names of the files are such; None where no words say two
/// files with names, and the option at most once.
fn said_by<'a>(behind: Placed<'a>) -> Option<Asked<'a>>
    ensures { IsSaidBy (words_in behind.entry) result }
{
    match behind {
        Placed::Two(file, answer) => Some(Asked {
            file,
            answer,
            form: Form::Page,
        }),
        Placed::Three(first, middle, last) => said_by_three(first, middle, last),
    }
}

/// Whether a word may be the name of a file: it isn't empty and doesn't begin with a dash.
fn names_file(word: &str) -> bool
    ensures { IsTrue result ↔ IsFileName word.now }
{
    !word.is_empty() && word.as_bytes()[0] != b'-'
}

/// What the words ask for; None exactly where they ask for nothing.
pub fn read_words<'a>(words: &'a [String]) -> Option<Asked<'a>>
    ensures { IsAskedBy (words_of words.now) result }
{
    let asked = said_by(behind(words)?)?;
    if names_file(asked.file) && names_file(asked.answer) {
        Some(asked)
    } else {
        None
    }
}
