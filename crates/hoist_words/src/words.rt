// Words and the request that they mean.
ghost use Rattle.std.specs.Prelude.{IfOk};
ghost use Rattle.hoist_words.specs.Request.{words_of, IsRequestOf};

use crate::Request;
use crate::commands::{matches_for, request_of};
use crate::found::found_in;
use crate::table::CommandName;
use std::alloc::{AllocError, Global};

/// The words behind a command are at most a file and three options of two words each.
const MOST_WORDS: usize = 7;

/// What the words ask for; None exactly where they ask for nothing. An error is want of memory.
///
/// A word that begins with a dash and is no option of its command is refused here, before `clap` reads the others.
pub fn read_words(alloc: Global, words: &[String]) -> Result<Option<Request>, AllocError>
    ensures { IfOk result (λ r. IsRequestOf (words_of words.now) r) }
{
    let [_, asked @ ..] = words else {
        return Ok(None);
    };
    let [name, behind @ ..] = asked else {
        return Ok(None);
    };
    let Some(command) = CommandName::of(name.as_str()) else {
        return Ok(None);
    };
    if behind.len() > MOST_WORDS {
        return Ok(None);
    }
    let Some(found) = found_in(behind) else {
        return Ok(None);
    };
    let row = command.row();
    if !found.fits(&row) {
        return Ok(None);
    }
    let matches = matches_for(alloc, name.as_str(), &row, asked)?;
    request_of(alloc, command, &matches)
}
