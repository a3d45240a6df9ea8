//! Where the parts of a piece stand.

/// Where in the item of a piece a part of it stands.
#[derive(Clone, Copy)]
pub enum Way<'b> {
    /// In the same item.
    Here,
    /// The item of a list.
    Item(u64),
    /// The item of an item of a list.
    Within(u64, u64),
    /// The key of a map.
    Key(&'b str),
    /// The value under the key of a map.
    Under(&'b str),
    /// The key of an entry in an element of a HAMT's root.
    KeyInNode(u64, u64),
    /// The value of an entry in an element of a HAMT's root.
    ValueInNode(u64, u64),
}
