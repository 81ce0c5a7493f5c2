// The command `follow`.
ghost use Rattle.std.specs.Prelude.{◌≡◌, ◌≤◌, IfOk, length};
ghost use Rattle.hoist_cli.specs.Reading.{reading, answer_limit};
ghost use Rattle.hoist_cli.specs.Followed.{IsFollowOf, FollowReply, status_of_followed};
ghost use Rattle.hoist_cli.specs.Stops.{Gives};

use crate::files::{ANSWER_LIMIT, fetch, line_in};
use crate::replies::{Reply, Stop};
use crate::status::Status;
use hoist_base::Line;
use outside::Shelf;
use std::alloc::{AllocError, Global};
use track_log::{Followed, follow, followed_text};

/// The status of how far a log is followed.
fn status_on(followed: &Followed) -> Status
    ensures { result ≡ status_of_followed followed.now }
{
    match followed {
        Followed::Follows { .. } => Status::Done,
        Followed::Departs { .. } => Status::Negative,
        Followed::Broken { .. } => Status::Broken,
    }
}

/// The reply to the bytes of a log.
fn followed(alloc: Global, line: &Line, bytes: &[u8]) -> Result<Reply, AllocError>
    requires { length bytes.now ≤ answer_limit }
    ensures { IfOk result (λ reply. IsFollowOf line.now bytes.now reply.status reply.text.items) }
{
    let followed = follow(alloc, line, bytes)?;
    let text = followed_text(alloc, &followed)?;
    Ok(Reply {
        status: status_on(&followed),
        text,
    })
}

/// The reply to a request to follow the log of a file on the machine of the line of another.
pub(crate) fn follow_file<F: Shelf>(
    alloc: Global,
    file: &str,
    log: &str,
    shelf: &mut F,
) -> Result<Reply, Stop>
    ensures { Gives (FollowReply (reading (F.files shelf.old) (F.faults shelf.old)
        (F.faults shelf.new)) file.now log.now) result }
{
    let line = line_in(alloc, file, shelf)?;
    let bytes = fetch(alloc, log, ANSWER_LIMIT, shelf)?;
    let reply = followed(alloc, &line, bytes.as_slice())?;
    Ok(reply)
}
