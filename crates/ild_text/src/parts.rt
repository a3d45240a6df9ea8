//! Texts that were split.
ghost use Rattle.std.specs.Prelude.{◌≡◌, ◌<◌, length, true};
ghost use Rattle.ild_text.specs.Pairs.{are_keyed, entries};

/// The parts of a text: a borrow of the text, and the delimiter between the parts.
#[derive(Clone, Copy)]
pub struct JoinParts<'b> {
    pub(crate) text: &'b str,
    pub(crate) delim: &'b str,
    ghost some: { 0 < length delim.now },
}

/// The pairs of a text: a borrow of the text, the delimiter inside a pair and that between the pairs, and how many there
/// are.
#[derive(Clone, Copy)]
pub struct PairParts<'b> {
    pub(crate) text: &'b str,
    pub(crate) inner: &'b str,
    pub(crate) entry: &'b str,
    pub(crate) count: usize,
    ghost inner_some: { 0 < length inner.now },
    ghost entry_some: { 0 < length entry.now },
    ghost counted: { count ≡ length (entries entry.now text.now) },
    ghost keyed: { are_keyed inner.now (entries entry.now text.now) ≡ true },
}
