// The whole document.
ghost use Rattle.std.specs.Prelude.{◌≡◌, Some, IfOk};
ghost use Rattle.timetable.specs.TimetableData.{timetable_of, FitsLine};
ghost use Rattle.answer_text.specs.Words.{verdict_text};
ghost use Rattle.serde_json.specs.Data.{string};
ghost use Rattle.serde_json.specs.View.{view};
ghost use Rattle.report_json.specs.Document as document;

use crate::lines::line_value;
use crate::plans::{carriers, hoists, moves};
use answer_text::{Answer, Verdict};
use hoist_base::Line;
use serde_json::{Value, json};
use std::alloc::{AllocError, Global};
use timetable::Timetable;

/// The word of a verdict.
fn verdict_value(alloc: Global, verdict: Verdict) -> Result<Value, AllocError>
    ensures { IfOk result (λ v. view v ≡ string (verdict_text verdict)) }
{
    match verdict {
        Verdict::Optimal => Value::try_from_str(alloc, "optimal"),
        Verdict::Nothing => Value::try_from_str(alloc, "none"),
        Verdict::Unfinished => Value::try_from_str(alloc, "open"),
    }
}

/// The value of an answer with its timetable.
#[tactic(auto, unfolding(crate::specs::Document::document))]
fn value(alloc: Global, line: &Line, answer: &Answer, t: &Timetable) -> Result<Value, AllocError>
    requires { FitsLine line.now t.now }
    ensures { IfOk result (λ v. view v ≡ document.document line.now answer.now (timetable_of t.now)) }
{
    let carriers = carriers(alloc, line, t)?;
    let hoists = hoists(alloc, line, t)?;
    let parts = line_value(alloc, line)?;
    let moves = moves(alloc, line, t)?;
    let verdict = verdict_value(alloc, answer.verdict)?;
    json!(in alloc; {
        "bound": answer.bound,
        "carriers": carriers,
        "hoists": hoists,
        "line": parts,
        "moves": moves,
        "period": t.period(),
        "verdict": verdict,
        "version": 1u32
    })
}

/// An answer to a line as one JSON document, on one line: the line, the verdict and the bound of the answer, and its
/// timetable, which is `t`. All numbers are ticks, positions and numbers of things; docs/FORMATS.md has the schema.
#[tactic(auto, using(crate::proofs::Floats::document_plain))]
pub fn json(
    alloc: Global,
    line: &Line,
    answer: &Answer,
    t: &Timetable,
) -> Result<Vec<u8>, AllocError>
    requires timetable { answer.now.timetable ≡ Some t.now }
    requires fits { FitsLine line.now t.now }
    ensures { IfOk result (λ text. text.items ≡ document.json_text line.now answer.now (timetable_of t.now)) }
{
    let value = value(alloc, line, answer, t)?;
    let mut text = value.to_vec(alloc)?;
    text.push(b'\n')?;
    Ok(text)
}
