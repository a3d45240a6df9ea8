//! What a schema says of a type (IPLD Schemas, "Schema Kinds" and "Representations"): its form and its parts. Each `at`
//! is the offset of a part in the schema's text: of its name, or of the first token where it has none.
use crate::{List, Slot, TypeNo};
use ild_data::{HamtShape, Int, Txt};

/// A type.
#[derive(Drop)]
pub enum TypeDef {
    Bool,
    Text,
    Bytes,
    Int,
    /// Any value but null.
    Any,
    /// A link, and the type that the linked block is expected to hold.
    Link(TypeNo),
    Unit(UnitForm),
    /// A list, and the place of its element.
    List {
        elem: Slot,
        at: usize,
    },
    /// A map, with the places of its key and of its value.
    Map {
        key: TypeNo,
        key_at: usize,
        value: Slot,
        at: usize,
        form: MapForm,
    },
    Struct(StructDef),
    Union(UnionDef),
    Enum(EnumDef),
    /// The same type as another, under a name of its own.
    Copy(TypeNo),
}

/// How a unit stands in a block.
#[derive(Clone, Copy)]
pub enum UnitForm {
    Null,
    True,
    False,
    EmptyMap,
}

/// How a map stands in a block. The texts part a key from its value, and an entry from the next.
#[derive(Drop)]
pub enum MapForm {
    Map,
    ListPairs,
    StringPairs(Txt, Txt),
    /// As IPLD HashMap in many blocks, of this shape.
    Hamt(HamtShape),
}

/// How a struct stands in a block. The texts part a name from its value, and a field from the next.
#[derive(Drop)]
pub enum StructForm {
    Map,
    Tuple,
    ListPairs,
    StringPairs(Txt, Txt),
    StringJoin(Txt),
}

/// How a union stands in a block. An envelope has the key of the discriminant and that of the content.
#[derive(Drop)]
pub enum UnionForm {
    Keyed,
    Kinded,
    StringPrefix,
    BytesPrefix,
    Envelope(Txt, Txt),
    Inline(Txt),
}

/// How an enum stands in a block.
#[derive(Clone, Copy)]
pub enum EnumForm {
    Text,
    Int,
}

/// A struct.
#[derive(Drop)]
pub struct StructDef {
    pub fields: Fields,
    pub form: StructForm,
}

/// The fields of a struct.
pub type Fields = List<Field>;

/// A field: its name in a block is `rename`, if that is given, and `implicit` stands for it where it is left out.
#[derive(Drop)]
pub struct Field {
    pub name: Txt,
    pub at: usize,
    pub optional: bool,
    pub slot: Slot,
    pub rename: Option<Txt>,
    pub implicit: Option<Scalar>,
}

/// A value that a field has where it is left out.
#[derive(Drop)]
pub enum Scalar {
    Bool(bool),
    Int(Int),
    Text(Txt),
}

/// A union.
#[derive(Drop)]
pub struct UnionDef {
    pub members: Members,
    pub form: UnionForm,
}

/// The members of a union.
pub type Members = List<Member>;

/// A member of a union, named after its type.
#[derive(Drop)]
pub struct Member {
    pub name: Txt,
    pub at: usize,
    pub ty: TypeNo,
    pub mark: Mark,
}

/// What stands behind a member: nothing, the text of its discriminant, or its kind.
#[derive(Drop)]
pub enum Mark {
    Bare,
    Text(Txt),
    Kind(KindWord),
}

/// A kind of the data model that a schema can name.
#[derive(Clone, Copy)]
pub enum KindWord {
    Null,
    Bool,
    Int,
    Text,
    Bytes,
    List,
    Map,
    Link,
}

/// An enum.
#[derive(Drop)]
pub struct EnumDef {
    pub members: EnumMembers,
    pub form: EnumForm,
}

/// The members of an enum.
pub type EnumMembers = List<EnumMember>;

/// A member of an enum, and the text between quotes that stands for it in a block, if one is given.
#[derive(Drop)]
pub struct EnumMember {
    pub name: Txt,
    pub at: usize,
    pub text: Option<Txt>,
}
