// Documents.
ghost use Rattle.std.specs.Prelude.{◌≡◌, IfOk};
ghost use Rattle.markup.specs.Forms.{document_text, IsDocument};

use crate::element::Element;
use std::alloc::{AllocError, Global};

#[tactic(auto, unfolding(crate::specs::Forms::document_text))]
/// The document of an element: the line that says that it is HTML, and then the element. Its text is that of a tree.
pub fn document(alloc: Global, root: &Element) -> Result<Vec<u8>, AllocError>
    ensures text { IfOk result (λ text. text.items ≡ document_text root.now) }
    ensures tree { IfOk result (λ text. IsDocument text.items) }
{
    let mut text = Vec::from_slice(alloc, b"<!DOCTYPE html>\n")?;
    root.push_to(&mut text)?;
    Ok(text)
}
