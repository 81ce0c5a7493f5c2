// What one word behind the command is.
ghost use Rattle.std.specs.Prelude.{codes};
ghost use Rattle.hoist_words.specs.Forms.{IsForm, IsFormOf, StartsWith};

/// The name of an option.
#[derive(Clone, Copy, Debug)]
pub(crate) enum Name {
    Budget,
    Workers,
    Carriers,
    Upto,
}

/// What a word is.
///
/// - `File`: no option: the name of a file or a number in its place.
/// - `Opens`: the name of an option, whose value is the next word.
/// - `Given`: an option with its value.
/// - `Other`: none of these.
#[derive(Clone, Copy, Debug)]
pub(crate) enum Form<'a> {
    File(&'a str),
    Opens(Name),
    Given(Name, &'a str),
    Other,
}

/// What stands behind `start` in a word that begins so.
fn behind<'a>(word: &'a str, start: &str) -> Option<&'a str>
    ensures { StartsWith word.entry.now start.now result }
{
    word.strip_prefix(start)
}

/// What a word is that may be the option of this name, whose word without a value is `opening`.
fn form_as<'a>(word: &'a str, name: Name, opening: &str) -> Form<'a>
    ensures { IsFormOf word.entry.now name opening.now result }
{
    let Some(rest) = behind(word, opening) else {
        return Form::Other;
    };
    if rest.is_empty() {
        return Form::Opens(name);
    }
    match behind(rest, "=") {
        Some(value) => Form::Given(name, value),
        None => Form::Other,
    }
}

/// What a word is.
pub(crate) fn form_of<'a>(word: &'a str) -> Form<'a>
    ensures { IsForm word.entry.now result }
{
    if word.is_empty() {
        return Form::Other;
    }
    if word.as_bytes()[0] != b'-' {
        return Form::File(word);
    }
    match form_as(word, Name::Budget, "--budget") {
        Form::Other => match form_as(word, Name::Workers, "--workers") {
            Form::Other => match form_as(word, Name::Carriers, "--carriers") {
                Form::Other => form_as(word, Name::Upto, "--upto"),
                form => form,
            },
            form => form,
        },
        form => form,
    }
}
