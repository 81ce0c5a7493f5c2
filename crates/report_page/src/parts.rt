// Parts that several sections have.
ghost use Rattle.std.specs.Prelude.{◌≡◌, IfOk};
ghost use Rattle.report_page.specs.Parts as parts;

use markup::{Element, Tag};
use std::alloc::{AllocError, Global};

/// An element that holds words alone.
pub(crate) fn said(alloc: Global, tag: Tag, words: &[u8]) -> Result<Element, AllocError>
    ensures { IfOk result (λ e. e ≡ parts.said tag words.now) }
{
    Element::new(alloc, tag).saying(words)
}
