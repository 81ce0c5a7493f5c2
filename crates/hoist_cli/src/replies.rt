// What the program prints, and its status.
ghost use Rattle.std.specs.Prelude.{◌≡◌, IfOk};
ghost use Rattle.hoist_cli.specs.Reading.{IsLineOf};
ghost use Rattle.hoist_cli.specs.Reply.{usage};
ghost use Rattle.hoist_cli.specs.Stops.{Refuses, settled_of};

use crate::status::Status;
use std::alloc::{AllocError, Global};

/// The text that is to be printed, and the status that the program ends with once it is printed.
#[derive(Debug, Drop)]
pub struct Reply {
    pub status: Status,
    pub text: Vec<u8>,
}

/// Why there is nothing more to do: a reply that refuses, or want of memory.
#[derive(Debug, Drop)]
pub enum Stop {
    Refused(Reply),
    Memory,
}

impl From<AllocError> for Stop {
    ghost use Rattle.std.specs.Prelude.{◌≡◌};
    ghost use Rattle.hoist_cli.specs.declared.replies.Stop.TheVariants.{Memory};

    ghost from_gives = { λ _ stop. stop ≡ Memory };

    fn from(_error: AllocError) -> Stop {
        Stop::Memory
    }
}

/// The usage of the program.
pub(crate) fn usage_reply(alloc: Global) -> Result<Reply, AllocError>
    ensures { IfOk result (λ reply. (reply.status ≡ Status.Words) × (reply.text.items ≡ usage)) }
{
    let mut text = Vec::from_slice(
        alloc,
        b"usage: hoist solve FILE [--budget N] [--workers N]\n",
    )?;
    text.extend_from_slice(b"       hoist check FILE ANSWER\n")?;
    text.extend_from_slice(b"       hoist run FILE ANSWER [--carriers N]\n")?;
    text.extend_from_slice(b"       hoist chart FILE ANSWER\n")?;
    text.extend_from_slice(b"       hoist drill SEED\n")?;
    text.extend_from_slice(b"       hoist sweep FILE [--upto N] [--budget N] [--workers N]\n")?;
    text.extend_from_slice(b"       hoist margin FILE ANSWER\n")?;
    text.extend_from_slice(b"       hoist follow FILE LOG\n")?;
    text.extend_from_slice(b"       hoist batch LIST [--budget N] [--workers N]\n")?;
    Ok(Reply {
        status: Status::Words,
        text,
    })
}

/// A word and what it is about, as one line.
fn line_of(alloc: Global, status: Status, word: &[u8], about: &[u8]) -> Result<Reply, AllocError>
    ensures { IfOk result (λ reply. IsLineOf status word.now about.now reply.status reply.text.items) }
{
    let mut text = Vec::from_slice(alloc, word)?;
    text.extend_from_slice(about)?;
    text.push(b'\n')?;
    Ok(Reply { status, text })
}

/// The stop with a word and what it is about, as one line.
pub(crate) fn refusal(alloc: Global, status: Status, word: &[u8], about: &[u8]) -> Stop
    ensures { Refuses (IsLineOf status word.now about.now) result }
{
    match line_of(alloc, status, word, about) {
        Ok(reply) => Stop::Refused(reply),
        Err(_) => Stop::Memory,
    }
}

/// The reply, whether a command stopped with it or not; None for want of memory.
pub fn settled(replied: Result<Reply, Stop>) -> Option<Reply>
    ensures { result ≡ settled_of replied }
{
    match replied {
        Ok(reply) => Some(reply),
        Err(Stop::Refused(reply)) => Some(reply),
        Err(Stop::Memory) => None,
    }
}
