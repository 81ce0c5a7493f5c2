// Sections, and cells of tables.
ghost use Rattle.std.specs.Prelude.{◌≡◌, IfOk};
ghost use Rattle.report_dwells.specs.Cells as cells;

use markup::{Element, Key, Tag};
use std::alloc::{AllocError, Global};
use text_writing::push_number;

/// A section of a report: a class for its looks, and its heading. What it shows is put behind the heading.
pub fn section(alloc: Global, class: &[u8], title: &[u8]) -> Result<Element, AllocError>
    ensures { IfOk result (λ e. e ≡ cells.section class.now title.now) }
{
    let title = Element::new(alloc, Tag::Subheading).saying(title)?;
    Element::new(alloc, Tag::Division)
        .having(Key::Class, class)?
        .holding(&title)
}

/// A cell that heads a column or a row.
pub fn heading(alloc: Global, words: &[u8]) -> Result<Element, AllocError>
    ensures { IfOk result (λ e. e ≡ cells.heading words.now) }
{
    Element::new(alloc, Tag::HeadCell).saying(words)
}

/// A row with a heading behind what it has.
pub fn headed(alloc: Global, row: Element, words: &[u8]) -> Result<Element, AllocError>
    ensures { IfOk result (λ e. e ≡ cells.headed row words.now) }
{
    let heading = heading(alloc, words)?;
    row.holding(&heading)
}

/// A cell with words.
pub fn cell(alloc: Global, words: &[u8]) -> Result<Element, AllocError>
    ensures { IfOk result (λ e. e ≡ cells.cell words.now) }
{
    Element::new(alloc, Tag::Cell).saying(words)
}

/// A cell with a number, in decimal.
pub fn number_cell(alloc: Global, number: u64) -> Result<Element, AllocError>
    ensures { IfOk result (λ e. e ≡ cells.number_cell number) }
{
    let mut words = Vec::new(alloc);
    push_number(&mut words, number)?;
    Element::new(alloc, Tag::Cell)
        .having(Key::Class, b"number")?
        .saying(words.as_slice())
}

/// A drawing of a class, so many pixels wide and 10 high. Its sides, as SVG's view box has them, are stretched to its
/// size.
pub fn drawing(alloc: Global, class: &[u8], width: u64, sides: &[u8]) -> Result<Element, AllocError>
    ensures { IfOk result (λ e. e ≡ cells.drawing class.now width sides.now) }
{
    Element::new(alloc, Tag::Svg)
        .having(Key::Class, class)?
        .having_number(Key::Width, width)?
        .having(Key::Height, b"10")?
        .having(Key::ViewBox, sides)?
        .having(Key::Scaling, b"none")
}
