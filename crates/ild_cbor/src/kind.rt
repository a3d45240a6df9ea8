//! Kinds of items.

/// The kind of an item in the IPLD data model.
#[derive(Clone, Copy, Debug, PartialEq, Eq)]
pub enum Kind {
    Null,
    Bool,
    Int,
    Text,
    Bytes,
    List,
    Map,
    Link,
}
