//! Documents of HTML and SVG elements. An element is made with its name and filled with attributes, words and other
//! elements; nothing else can be put into one, so a document is well-formed, and each word in it is escaped.
#![tactic(auto)]

mod element;
mod escape;
pub mod laws;
mod whole;
mod words;

pub use element::Element;
pub use whole::document;
pub use words::{Key, Tag};
