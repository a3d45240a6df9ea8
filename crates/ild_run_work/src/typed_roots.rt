//! The roots of values of a type in a store.
ghost use Rattle.std.specs.Prelude.{◌<◌, length};
ghost use Rattle.ild_typed.specs.Schema.{IsSchema};

use ild_edges::Store;
use ild_schema::{Accepted, TypeNo};
use std::alloc::Global;

/// The roots of values of a type in a store, which is held for as long.
#[derive(Drop)]
pub struct TypedRoots<'s, 'k, K> {
    pub(crate) alloc: Global,
    pub(crate) acc: &'s Accepted,
    pub(crate) ty: TypeNo,
    pub(crate) store: &'k mut K,
    ghost within: { ty.0 < length acc.now },
    ghost schema: { ∥ IsSchema acc.now ∥₁ },
}

impl<'s, 'k, K: Store> TypedRoots<'s, 'k, K> {
    ghost use Rattle.std.specs.Prelude.{◌≡◌};
    ghost use Rattle.ild_run_work.specs.Rules.{rules_of};
    ghost use Rattle.ild_run_work.specs.Held.{moment_in, root_rules};

    /// The roots of values of this type in this store.
    pub fn of(
        alloc: Global,
        acc: &'s Accepted,
        ty: TypeNo,
        store: &'k mut K,
    ) -> TypedRoots<'s, 'k, K>
        requires { ty.0 < length acc.now }
        ensures rules { root_rules result ≡ record { rules = rules_of acc.now ty; store = store.entry.ghost_name } }
        ensures same { moment_in K.moment result ≡ K.moment store.old }
    {
        acc.recall();
        TypedRoots {
            alloc,
            acc,
            ty,
            store,
        }
    }
}
