//! Reading a root that names its schema.
ghost use Rattle.std.specs.Prelude.{◌≡◌, ℕ, List, length, is_some, IfSome, IsSome};
ghost use Rattle.ild_data.specs.Data.{Data, Members, link};
ghost use Rattle.ild_data.specs.Spell.{cid_of};
ghost use Rattle.ild_cbor.specs.Nodes.{HasData};
ghost use Rattle.ild_cbor.specs.Span.{entry_of};
ghost use Rattle.ild_cbor.specs.Steps.{HasEntries};
ghost use Rattle.ild_named.specs.Named.{named_data};
ghost use Rattle.ild_named.specs.Parts.{FindsParts, HasParts, unnamed_why};
ghost use Rattle.ild_named.specs.inside.Next.{NextAt};

use ild_cbor::{Kind, Node, Pairs, Why};
use ild_data::BlockId;

/// How many levels a value may nest under such a root, whose map is a level itself.
pub const NAMED_ROOM: u32 = 95;

/// The parts of a root that names its schema, where they stand in its block.
#[derive(Clone, Copy)]
pub struct NamedParts<'b> {
    /// The name of the value's type.
    pub name: &'b str,
    /// The data of the value.
    pub value: Node<'b>,
    /// The id of the block of the schema's text.
    pub schema: BlockId,
}

// The value of the next entry, where it has this key.
fn next_at<'b>(entries: &mut Pairs<'b>, key: &str) -> Option<Node<'b>>
    ensures { (ms : Members) → HasEntries entries.old ms → NextAt entries.old ms key.now result entries.new }
{
    match entries.next() {
        Some((found, value)) => { if found == key { Some(value) } else { None } }
        None => None,
    }
}

// The id of the block that an item links to.
fn linked(node: &Node<'_>) -> Option<BlockId>
    ensures found { (t : Data) → HasData node.now t → IfSome result (λ id. t ≡ link (cid_of id.0)) }
    ensures wide { IfSome result (λ id. length id.0 ≡ 32) }
    ensures only { (id : List ℕ) → length id ≡ 32 → HasData node.now (link (cid_of id)) → IsSome result }
{
    match node.link() {
        Some(cid) => cid.block(),
        None => None,
    }
}

// The parts of a map of exactly these three entries.
fn parts_in<'b>(root: &Node<'b>) -> Option<NamedParts<'b>>
    ensures found { (t : Data) → HasData root.now t → IfSome result (HasParts root.now t) }
    ensures only { (name id : List ℕ) (d : Data) → length id ≡ 32 → HasData root.now (named_data name id d) → IsSome result }
{
    let mut entries = root.entries()?;
    let ty = next_at(&mut entries, "type")?;
    let value = next_at(&mut entries, "value")?;
    let schema = next_at(&mut entries, "schema")?;
    if entries.next().is_some() {
        return None;
    }
    let name = ty.text()?;
    let schema = linked(&schema)?;
    Some(NamedParts {
        name,
        value,
        schema,
    })
}

// Whether a map has a value at a key.
fn has(root: &Node<'_>, key: &str) -> bool
    ensures { (t : Data) → HasData root.now t → result ≡ is_some (entry_of t key.now) }
{
    match root.entry(key) {
        Some(_) => true,
        None => false,
    }
}

// Why data are no such root's.
fn unnamed_why(root: &Node<'_>) -> Why
    ensures { (t : Data) → HasData root.now t → result ≡ unnamed_why t }
{
    let Kind::Map = root.kind() else {
        return Why::Kind;
    };
    let Some(3) = root.count() else {
        return Why::Count;
    };
    if has(root, "type") && (has(root, "value") && has(root, "schema")) {
        Why::Kind
    } else {
        Why::Name
    }
}

/// The parts of the root that an item is. Or else it isn't a map of exactly the entries `type`, a text, `value`, and `schema`, the link
/// to a block: it is told as `Kind` where it is no map, as `Count` where it has another number of entries, as `Name` where it has other
/// names, and as `Kind` where one of the two parts is of another kind.
pub fn named_parts<'b>(root: &Node<'b>) -> Result<NamedParts<'b>, Why>
    ensures { (t : Data) → HasData root.now t → FindsParts root.now t result }
{
    match parts_in(root) {
        Some(parts) => Ok(parts),
        None => Err(unnamed_why(root)),
    }
}
