//! What a new item is made of.

/// A part of a new item: of texts of a schema, and of bytes of another block.
#[derive(Clone, Copy)]
pub(crate) enum Part<'t, 'b> {
    /// The head of a map of so many entries.
    Map(u64),
    /// The head of a text of so many bytes.
    TextHead(u64),
    /// The head of a byte string of so many bytes.
    BytesHead(u64),
    /// A whole text.
    Text(&'t str),
    /// The bytes of a text in hexadecimal.
    Hex(&'t [u8]),
    /// Bytes that are copied as they are.
    Spelled(&'b [u8]),
}
