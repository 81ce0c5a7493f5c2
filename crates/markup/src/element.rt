// Elements.
ghost use Rattle.std.specs.Prelude.{◌≡◌, ◌++◌, decimal, OnOk, IfOk};
ghost use Rattle.markup.specs.Words.{is_void};
ghost use Rattle.markup.specs.Forms.{
  fresh,
  having,
  saying,
  holding,
  start_text,
  rest_text,
  form_text,
  attribute_text,
  AreAttributes,
  IsInside,
};

use crate::escape::push_escaped;
use crate::words::{Key, Tag};
use itoa::Buffer;
use std::alloc::{AllocError, Global};
use std::marker::Model;
use text_writing::Worded;

/// An element with its attributes and with the words and elements that it holds, seen as its name and their texts. It
/// has its text at all times: what is put into it is written behind what it holds.
#[derive(Debug, Drop)]
pub struct Element {
    tag: Tag,
    attributes: Vec<u8>,
    inside: Vec<u8>,
}

impl Model for Element {
    ghost use Rattle.markup.specs.Forms.{Form, form, AreAttributes, IsInside};

    ghost Value = { Form };

    ghost view = { λ e. form e.tag e.attributes.items e.inside.items };

    ghost invariant = { λ e. AreAttributes e.attributes.items × IsInside e.inside.items };
}

impl Element {
    #[tactic(auto, using(crate::proofs::Trees::no_attributes, crate::proofs::Trees::holds_nothing), unfolding(crate::specs::Forms::fresh))]
    /// An element that has no attribute and holds nothing. It takes no memory.
    pub fn new(alloc: Global, tag: Tag) -> Element
        ensures { result ≡ fresh tag }
    {
        Element {
            tag,
            attributes: Vec::new(alloc),
            inside: Vec::new(alloc),
        }
    }

    #[tactic(auto, unfolding(crate::specs::Forms::having))]
    /// The element with one attribute more, whose value is these words.
    pub fn having(self, key: Key, value: &[u8]) -> Result<Element, AllocError>
        ensures { IfOk result (λ e. e ≡ having self key value.now) }
    {
        let Element {
            tag,
            mut attributes,
            inside,
        } = self;
        push_attribute(&mut attributes, key, value)?;
        Ok(Element {
            tag,
            attributes,
            inside,
        })
    }

    /// The element with one attribute more, whose value is a number.
    pub fn having_number(self, key: Key, number: u64) -> Result<Element, AllocError>
        ensures { IfOk result (λ e. e ≡ having self key (decimal number)) }
    {
        let mut buffer = Buffer::new();
        self.having(key, buffer.format(number).as_bytes())
    }

    #[tactic(auto, unfolding(crate::specs::Forms::saying))]
    /// The element with these words behind what it holds.
    pub fn saying(self, words: &[u8]) -> Result<Element, AllocError>
        ensures { IfOk result (λ e. e ≡ saying self words.now) }
    {
        let Element {
            tag,
            attributes,
            mut inside,
        } = self;
        push_escaped(&mut inside, words)?;
        Ok(Element {
            tag,
            attributes,
            inside,
        })
    }

    #[tactic(auto, unfolding(crate::specs::Forms::holding))]
    /// The element with another one behind what it holds.
    pub fn holding(self, child: &Element) -> Result<Element, AllocError>
        ensures { IfOk result (λ e. e ≡ holding self child.now) }
    {
        let Element {
            tag,
            attributes,
            mut inside,
        } = self;
        child.push_to(&mut inside)?;
        Ok(Element {
            tag,
            attributes,
            inside,
        })
    }

    /// Writes the element.
    pub(crate) fn push_to(&self, text: &mut Vec<u8>) -> Result<(), AllocError>
        ensures written { OnOk result (text.new.items ≡ text.old.items ++ form_text self.now) }
        ensures attributes { AreAttributes self.now.attributes }
        ensures inside { IsInside self.now.inside }
    {
        let inside = self.inside();
        push_start(text, self.tag, self.attributes.as_slice())?;
        push_rest(text, self.tag, inside)
    }

    /// What it holds.
    fn inside(&self) -> &[u8]
        ensures value { result.now ≡ self.now.inside }
        ensures attributes { AreAttributes self.now.attributes }
        ensures inside { IsInside self.now.inside }
    {
        self.inside.as_slice()
    }
}

/// Writes the mark with which an element begins.
fn push_start(text: &mut Vec<u8>, tag: Tag, attributes: &[u8]) -> Result<(), AllocError>
    ensures { OnOk result (text.new.items ≡ text.old.items ++ start_text tag attributes.now) }
{
    text.extend_from_slice(b"<")?;
    text.extend_from_slice(tag.word())?;
    text.extend_from_slice(attributes)?;
    text.extend_from_slice(b">")
}

/// Writes what an element holds, and the mark with which it ends.
fn push_rest(text: &mut Vec<u8>, tag: Tag, inside: &[u8]) -> Result<(), AllocError>
    ensures { OnOk result (text.new.items ≡ text.old.items ++ rest_text (is_void tag) tag inside.now) }
{
    if tag.is_void() {
        return text.extend_from_slice(b"\n");
    }
    text.extend_from_slice(inside)?;
    text.extend_from_slice(b"</")?;
    text.extend_from_slice(tag.word())?;
    text.extend_from_slice(b">\n")
}

/// Writes an attribute.
fn push_attribute(text: &mut Vec<u8>, key: Key, value: &[u8]) -> Result<(), AllocError>
    ensures { OnOk result (text.new.items ≡ text.old.items ++ attribute_text key value.now) }
{
    text.push(b' ')?;
    text.extend_from_slice(key.word())?;
    text.extend_from_slice(b"=\"")?;
    push_escaped(text, value)?;
    text.extend_from_slice(b"\"")
}
