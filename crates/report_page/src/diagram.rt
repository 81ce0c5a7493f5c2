// The section of the time-way diagram.
ghost use Rattle.std.specs.Prelude.{◌≡◌, codes, map, IfOk};
ghost use Rattle.std.specs.List.{range_with_len};
ghost use Rattle.timetable.specs.TimetableData.{timetable_of, FitsLine};
ghost use Rattle.markup.specs.declared.words.Key.TheVariants as keys;
ghost use Rattle.markup.specs.declared.words.Tag.TheVariants as tags;
ghost use Rattle.markup.specs.Forms.{fresh, having, holding, holding_all};
ghost use Rattle.report_page.specs.Texts as texts;
ghost use Rattle.report_page.specs.Timeway as sections;

use crate::parts::said;
use hoist_base::Line;
use markup::{Element, Key, Tag};
use std::alloc::{AllocError, Global};
use text_writing::push_word_number;
use timetable::Timetable;
use timeway::{carrier_class, diagram, straight};

/// How the diagram is read.
const READING: &[u8] =
    b"Ticks run to the right, over two periods, and positions upward. A thin line is the way of a \
hoist, and a thick line over it is a hoist that carries. A bar is a carrier's stay in a tank, from the start of \
lowering to the end of lifting.";

#[tactic(auto, unfolding(crate::specs::Timeway::timeway))]
/// The section: a heading, how the diagram is read, the legend, and the diagram in a box that it may be wider than.
pub(crate) fn timeway(alloc: Global, line: &Line, t: &Timetable) -> Result<Element, AllocError>
    requires { FitsLine line.now t.now }
    ensures { IfOk result (λ e. e ≡ sections.timeway line.now (timetable_of t.now)) }
{
    let keys = legend(alloc, line)?;
    let shapes = wide_box(alloc, line, t)?;
    opening(alloc)?.holding(&keys)?.holding(&shapes)
}

#[tactic(auto, unfolding(crate::specs::Timeway::opening))]
/// What the diagram is and how it is read.
fn opening(alloc: Global) -> Result<Element, AllocError>
    ensures { IfOk result (λ e. e ≡ sections.opening) }
{
    let heading = said(alloc, Tag::Subheading, b"Time-way diagram")?;
    let reading = said(alloc, Tag::Paragraph, reading_words())?;
    Element::new(alloc, Tag::Division)
        .having(Key::Class, b"timeway")?
        .holding(&heading)?
        .holding(&reading)
}

#[tactic(auto, unfolding(crate::specs::Timeway::wide_box))]
/// The diagram in a box that it may be wider than.
fn wide_box(alloc: Global, line: &Line, t: &Timetable) -> Result<Element, AllocError>
    requires { FitsLine line.now t.now }
    ensures { IfOk result (λ e. e ≡ sections.wide_box line.now (timetable_of t.now)) }
{
    let shapes = diagram(alloc, line, t)?;
    Element::new(alloc, Tag::Division)
        .having(Key::Class, b"wide")?
        .holding(&shapes)
}

#[tactic(auto, unfolding(crate::specs::Texts::reading_words))]
/// How the diagram is read.
fn reading_words() -> &'static [u8]
    ensures { result.now ≡ texts.reading_words }
{
    READING
}

#[tactic(auto, unfolding(crate::specs::Timeway::legend))]
/// The legend: the way of a hoist, and the carriers of a period.
fn legend(alloc: Global, line: &Line) -> Result<Element, AllocError>
    ensures { IfOk result (λ e. e ≡ sections.legend line.now) }
{
    let way = key(alloc, b"way", b" way of a hoist")?;
    let keys = Element::new(alloc, Tag::Paragraph)
        .having(Key::Class, b"legend")?
        .holding(&way)?;
    with_carriers(alloc, keys, line)
}

/// The colours of the carriers of a period.
fn with_carriers(alloc: Global, mut keys: Element, line: &Line) -> Result<Element, AllocError>
    ensures { IfOk result (λ e. e ≡ holding_all keys (map sections.carrier_key (range_with_len 0 line.now.degree))) }
{
    for c in 0..line.degree() {
        let carrier = carrier_key(alloc, c)?;
        keys = keys.holding(&carrier)?;
    }
    Ok(keys)
}

/// The colour of a carrier.
fn carrier_key(alloc: Global, carrier: u32) -> Result<Element, AllocError>
    ensures { IfOk result (λ e. e ≡ sections.carrier_key carrier) }
{
    let class = carrier_class(alloc, b"bar c", carrier)?;
    let mut words = Vec::new(alloc);
    push_word_number(&mut words, b" carrier ", carrier as u64)?;
    key(alloc, class.as_slice(), words.as_slice())
}

/// What shapes of a class show.
fn key(alloc: Global, class: &[u8], words: &[u8]) -> Result<Element, AllocError>
    ensures { IfOk result (λ e. e ≡ sections.key class.now words.now) }
{
    let shape = swatch(alloc, class)?;
    Element::new(alloc, Tag::Span)
        .having(Key::Class, b"key")?
        .holding(&shape)?
        .saying(words)
}

/// A short line that looks as shapes of a class do.
fn swatch(alloc: Global, class: &[u8]) -> Result<Element, AllocError>
    ensures { IfOk result (λ e. e ≡ sections.swatch class.now) }
{
    let shape = straight(alloc, 0, 6, 32, 6)?;
    let group = Element::new(alloc, Tag::Group)
        .having(Key::Class, class)?
        .holding(&shape)?;
    Element::new(alloc, Tag::Svg)
        .having(Key::Class, b"swatch")?
        .having_number(Key::Width, 32)?
        .having_number(Key::Height, 12)?
        .holding(&group)
}
