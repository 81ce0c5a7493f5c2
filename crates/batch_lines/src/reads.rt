// What was read of the files of a batch.
ghost use Rattle.std.specs.Prelude.{◌≡◌, map, IfOk};
ghost use Rattle.batch_lines.specs.Parts.{lines_of, why_of};

use hoist_base::Line;
use line_text::{LineRead, Why};
use std::alloc::{AllocError, Global};

/// The lines that were read, in order, and for each file why it is no line, where it is none.
pub(crate) fn sorted_out(
    alloc: Global,
    reads: Vec<LineRead>,
) -> Result<(Vec<Line>, Vec<Option<Why>>), AllocError>
    ensures lines { IfOk result (λ x. x.0.items ≡ lines_of reads.items) }
    ensures whys { IfOk result (λ x. x.1.items ≡ map why_of reads.items) }
{
    let mut lines = Vec::with_capacity(alloc, reads.len())?;
    let mut whys = Vec::with_capacity(alloc, reads.len())?;
    for read in reads {
        match read {
            LineRead::Ready(line) => {
                lines.push(line)?;
                whys.push(None)?;
            }
            LineRead::Refused(why) => whys.push(Some(why))?,
        }
    }
    Ok((lines, whys))
}
