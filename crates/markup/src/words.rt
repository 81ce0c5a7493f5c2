// The names of elements and of attributes.
ghost use Rattle.std.specs.Prelude.{◌≡◌};
ghost use Rattle.markup.specs.Words.{tag_word, key_word, is_void};

use text_writing::Worded;

/// The elements that documents are made of.
#[derive(Clone, Copy, Debug, PartialEq, Eq)]
pub enum Tag {
    Html,
    Head,
    Meta,
    Title,
    Style,
    Body,
    Heading,
    Subheading,
    Paragraph,
    Division,
    Span,
    Table,
    Row,
    HeadCell,
    Cell,
    List,
    Item,
    Svg,
    Group,
    Line,
    Polyline,
    Text,
}

impl Worded for Tag {
    ghost word = { tag_word };

    fn word(&self) -> &'static [u8]
        ensures { result.now ≡ tag_word self.now }
    {
        match self {
            Tag::Html => b"html",
            Tag::Head => b"head",
            Tag::Meta => b"meta",
            Tag::Title => b"title",
            Tag::Style => b"style",
            Tag::Body => b"body",
            Tag::Heading => b"h1",
            Tag::Subheading => b"h2",
            Tag::Paragraph => b"p",
            Tag::Division => b"div",
            Tag::Span => b"span",
            Tag::Table => b"table",
            Tag::Row => b"tr",
            Tag::HeadCell => b"th",
            Tag::Cell => b"td",
            Tag::List => b"ol",
            Tag::Item => b"li",
            Tag::Svg => b"svg",
            Tag::Group => b"g",
            Tag::Line => b"line",
            Tag::Polyline => b"polyline",
            Tag::Text => b"text",
        }
    }
}

impl Tag {
    /// Whether the element never holds anything, and so has no end.
    pub fn is_void(self) -> bool
        ensures { result ≡ is_void self }
    {
        matches!(self, Tag::Meta)
    }
}

/// The attributes that elements have.
#[derive(Clone, Copy, Debug, PartialEq, Eq)]
pub enum Key {
    Charset,
    Class,
    Height,
    Lang,
    Points,
    Role,
    Scaling,
    ViewBox,
    Width,
    X,
    X1,
    X2,
    Y,
    Y1,
    Y2,
}

impl Worded for Key {
    ghost word = { key_word };

    fn word(&self) -> &'static [u8]
        ensures { result.now ≡ key_word self.now }
    {
        match self {
            Key::Charset => b"charset",
            Key::Class => b"class",
            Key::Height => b"height",
            Key::Lang => b"lang",
            Key::Points => b"points",
            Key::Role => b"role",
            Key::Scaling => b"preserveAspectRatio",
            Key::ViewBox => b"viewBox",
            Key::Width => b"width",
            Key::X => b"x",
            Key::X1 => b"x1",
            Key::X2 => b"x2",
            Key::Y => b"y",
            Key::Y1 => b"y1",
            Key::Y2 => b"y2",
        }
    }
}
