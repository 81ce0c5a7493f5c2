// What the words behind the command say.
ghost use Rattle.std.specs.Prelude.{◌≡◌, length};
ghost use Rattle.hoist_words.specs.Request.{words_of, Item, File, Given};
ghost use Rattle.hoist_words.specs.Forms.{name_of};
ghost use Rattle.hoist_words.specs.Found.{listed, names_of, IsFound, IsFit, IsOptionFit, IsWith};

use crate::forms::{Form, Name, form_of};
use crate::table::{CommandRow, Limits};

/// The words that are no options, in their order; more than two are never kept.
#[derive(Clone, Copy, Debug)]
pub(crate) enum Files<'a> {
    Empty,
    One(&'a str),
    Two(&'a str, &'a str),
}

impl Files<'_> {
    fn count(&self) -> usize
        ensures { result ≡ length (names_of self.now) }
    {
        match self {
            Files::Empty => 0,
            Files::One(..) => 1,
            Files::Two(..) => 2,
        }
    }
}

/// Whether the value of an option with these limits may be a number: it isn't given, or the command takes it, and it
/// doesn't begin with a dash.
fn is_fit(limits: Option<Limits>, given: Option<&str>) -> bool
    ensures { IsOptionFit limits (listed given.entry) result }
{
    let Some(value) = given else {
        return true;
    };
    if limits.is_none() {
        return false;
    }
    if value.is_empty() {
        return false;
    }
    value.as_bytes()[0] != b'-'
}

/// What the words behind the command say: the words that are no options, and the value of each option that is given.
#[derive(Clone, Copy, Debug)]
pub(crate) struct Found<'a> {
    pub(crate) files: Files<'a>,
    pub(crate) budget: Option<&'a str>,
    pub(crate) workers: Option<&'a str>,
    pub(crate) carriers: Option<&'a str>,
    pub(crate) upto: Option<&'a str>,
}

impl<'a> Found<'a> {
    /// The same with a word in front that is no option; None where there are two.
    fn with_file(self, name: &'a str) -> Option<Found<'a>>
        ensures { IsWith (File name.now) self.entry result }
    {
        let files = match self.files {
            Files::Empty => Files::One(name),
            Files::One(last) => Files::Two(name, last),
            Files::Two(..) => return None,
        };
        Some(Found { files, ..self })
    }

    /// The same with an option in front; None where it is given.
    fn with_option(self, name: Name, value: &'a str) -> Option<Found<'a>>
        ensures { IsWith (Given (name_of name) value.now) self.entry result }
    {
        match name {
            Name::Budget => match self.budget {
                Some(_) => None,
                None => Some(Found {
                    budget: Some(value),
                    ..self
                }),
            },
            Name::Workers => match self.workers {
                Some(_) => None,
                None => Some(Found {
                    workers: Some(value),
                    ..self
                }),
            },
            Name::Carriers => match self.carriers {
                Some(_) => None,
                None => Some(Found {
                    carriers: Some(value),
                    ..self
                }),
            },
            Name::Upto => match self.upto {
                Some(_) => None,
                None => Some(Found {
                    upto: Some(value),
                    ..self
                }),
            },
        }
    }

    /// Whether this is as the command's row has it.
    pub(crate) fn fits(&self, row: &CommandRow) -> bool
        ensures { IsFit row.now self.now result }
    {
        self.files.count() == row.files
            && is_fit(row.budget, self.budget)
            && is_fit(row.workers, self.workers)
            && is_fit(row.carriers, self.carriers)
            && is_fit(row.upto, self.upto)
    }
}

/// What the words behind the command say; None where a word is out of place, an option is given twice, or there are
/// more than two words that are no options. It calls itself once a word.
pub(crate) fn found_in<'a>(words: &'a [String]) -> Option<Found<'a>>
    ensures { IsFound (words_of words.now) result }
{
    let [word, rest @ ..] = words else {
        return Some(Found {
            files: Files::Empty,
            budget: None,
            workers: None,
            carriers: None,
            upto: None,
        });
    };
    match form_of(word.as_str()) {
        Form::File(name) => found_in(rest)?.with_file(name),
        Form::Given(name, value) => found_in(rest)?.with_option(name, value),
        Form::Opens(name) => {
            let [value, rest @ ..] = rest else {
                return None;
            };
            found_in(rest)?.with_option(name, value.as_str())
        }
        Form::Other => None,
    }
}
