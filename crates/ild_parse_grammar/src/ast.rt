//! A type for each rule of the grammar, and the words, texts and numbers with their places.
use crate::Ref;
use ild_data::{Int, List, Txt};

/// A word that names a type: it begins with an upper-case letter.
#[derive(Drop)]
pub struct TypeName {
    pub at: usize,
    pub name: Txt,
}

/// Any word, as the name of a field or of a member of an enum.
#[derive(Drop)]
pub struct Name {
    pub at: usize,
    pub name: Txt,
}

/// What a text between quotes means: its characters, without the backslashes of its escapes.
#[derive(Drop)]
pub struct Text {
    pub at: usize,
    pub text: Txt,
}

/// A number.
#[derive(Drop)]
pub struct Number {
    pub at: usize,
    pub value: Int,
}

/// schema = { decl }
#[derive(Drop)]
pub struct Ast {
    pub decls: List<Decl>,
}

/// decl = "type" Type body | "advanced" Type
#[derive(Drop)]
pub enum Decl {
    Type(TypeDecl),
    Advanced(TypeName),
}

/// "type" Type body
#[derive(Drop)]
pub struct TypeDecl {
    pub name: TypeName,
    pub body: Body,
}

/// body: a copy of a type, a scalar, a link, a list, or one of the larger forms. `float` stands with its place.
#[derive(Drop)]
pub enum Body {
    Copy(TypeName),
    Bool,
    String,
    Bytes,
    Int,
    Float(usize),
    Any,
    Link(TypeName),
    List(Ref),
    Map(MapBody),
    Struct(StructBody),
    Union(UnionBody),
    Enum(EnumBody),
    Unit(UnitForm),
}

/// map = "{" Type ":" ref "}" [ "representation" form ]
#[derive(Drop)]
pub struct MapBody {
    pub key: TypeName,
    pub value: Ref,
    pub form: Option<MapForm>,
}

/// "map" | "listpairs" | pairs | "advanced" Type
#[derive(Drop)]
pub enum MapForm {
    Map,
    ListPairs,
    StringPairs(Pairs),
    Advanced(TypeName),
}

/// pairs = "stringpairs" "{" "innerDelim" Text "entryDelim" Text "}", the settings in any order
#[derive(Drop)]
pub struct Pairs {
    pub inner: Text,
    pub entry: Text,
}

/// struct = "struct" "{" { field } "}" [ "representation" form ]
#[derive(Drop)]
pub struct StructBody {
    pub fields: List<Field>,
    pub form: Option<StructForm>,
}

/// "map" | "tuple" | "listpairs" | pairs | "stringjoin" "{" "join" Text "}"
#[derive(Drop)]
pub enum StructForm {
    Map,
    Tuple,
    ListPairs,
    StringPairs(Pairs),
    StringJoin(Text),
}

/// field = Name [ "optional" ] ref [ "(" opt { opt } ")" ]
#[derive(Drop)]
pub struct Field {
    pub name: Name,
    pub optional: bool,
    pub value: Ref,
    pub opts: List<Opt>,
}

/// opt = "rename" Text | "implicit" ( Text | Number | "true" | "false" ), each at most once
#[derive(Drop)]
pub enum Opt {
    Rename(Text),
    Implicit(Implicit),
}

/// Text | Number | "true" | "false"
#[derive(Drop)]
pub enum Implicit {
    Text(Text),
    Number(Number),
    True,
    False,
}

/// union = "union" "{" { "|" member } "}" "representation" form
#[derive(Drop)]
pub struct UnionBody {
    pub members: List<Member>,
    pub form: UnionForm,
}

/// ( Type | "&" Type ) [ Text | kind ], from the place of its first token
#[derive(Drop)]
pub struct Member {
    pub at: usize,
    pub target: Target,
    pub mark: Option<Mark>,
}

/// Type | "&" Type
#[derive(Drop)]
pub enum Target {
    Type(TypeName),
    Link(TypeName),
}

/// Text | kind
#[derive(Drop)]
pub enum Mark {
    Text(Text),
    Kind(KindWord),
}

/// kind = "null" | "bool" | "int" | "float" | "string" | "bytes" | "list" | "map" | "link". `float` stands with its
/// place.
#[derive(Drop)]
pub enum KindWord {
    Null,
    Bool,
    Int,
    Float(usize),
    String,
    Bytes,
    List,
    Map,
    Link,
}

/// "keyed" | "kinded" | "stringprefix" | "bytesprefix" | "envelope" settings | "inline" "{" "discriminantKey" Text "}"
#[derive(Drop)]
pub enum UnionForm {
    Keyed,
    Kinded,
    StringPrefix,
    BytesPrefix,
    Envelope(Envelope),
    Inline(Text),
}

/// "{" "discriminantKey" Text "contentKey" Text "}", the settings in any order
#[derive(Drop)]
pub struct Envelope {
    pub discriminant: Text,
    pub content: Text,
}

/// enum = "enum" "{" { "|" member } "}" [ "representation" ( "string" | "int" ) ]
#[derive(Drop)]
pub struct EnumBody {
    pub members: List<EnumMember>,
    pub form: Option<EnumForm>,
}

/// Name [ "(" Text ")" ]
#[derive(Drop)]
pub struct EnumMember {
    pub name: Name,
    pub text: Option<Text>,
}

/// "string" | "int"
#[derive(Drop)]
pub enum EnumForm {
    String,
    Int,
}

/// "null" | "true" | "false" | "emptymap"
#[derive(Drop)]
pub enum UnitForm {
    Null,
    True,
    False,
    EmptyMap,
}
