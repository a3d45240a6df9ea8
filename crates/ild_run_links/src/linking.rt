//! Typed links to blocks.
ghost use Rattle.std.specs.Prelude.{◌≡◌, ◌<◌, IfSome, length, option_map};
ghost use Rattle.ild_run_links.specs.Links.{link_in, target_of};
ghost use Rattle.ild_schema.specs.Slots.{form_of};
ghost use Rattle.ild_run_links.specs.inside.Ends.{named};
ghost use Rattle.ild_schema.specs.Value.{Value};
ghost use Rattle.ild_view.specs.View.{IsView, slot_of, table_of};

use ild_data::BlockId;
use ild_schema::{TypeDef, TypeNo};
use ild_view::View;

// The type of the trees to which the links of a view's type lead.
fn target_of(view: &View<'_>) -> Option<TypeNo>
    ensures same { result ≡ target_of (form_of (table_of view.now) (slot_of view.now)) }
    ensures within { IfSome result (λ ty. ty.0 < length (table_of view.now)) }
{
    let acc = view.schema();
    acc.recall();
    match acc.def(acc.base(view.slot().ty)) {
        TypeDef::Link(target) => Some(*target),
        _ => None,
    }
}

/// The type and the id of the tree to which the view's value leads, where it is a link of a type of links to a block.
pub(crate) fn typed_link(view: &View<'_>) -> Option<(TypeNo, BlockId)>
    ensures same { (f : Value) → IsView view.now f → option_map named result ≡ link_in (table_of view.now) (slot_of view.now) f }
    ensures within { IfSome result (λ l. l.0.0 < length (table_of view.now)) }
{
    let Some(target) = target_of(view) else {
        return None;
    };
    let Some(cid) = view.link() else {
        return None;
    };
    match cid.block() {
        Some(id) => Some((target, id)),
        None => None,
    }
}
