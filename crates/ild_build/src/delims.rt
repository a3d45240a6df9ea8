//! The delimiters of a text of pairs.
ghost use Rattle.std.specs.Prelude.{◌<◌, length};

/// The delimiter between a key and its value, and that between one pair and the next.
#[derive(Clone, Copy)]
pub(crate) struct Delims<'a> {
    pub(crate) inner: &'a str,
    pub(crate) entry: &'a str,
    ghost inner_some: { 0 < length inner.now },
    ghost entry_some: { 0 < length entry.now },
}
