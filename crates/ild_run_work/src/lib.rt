//! Lines of sessions over named heads, run on roots in a store: the value of a type that stands under a root is read and edited (IPLD
//! Schemas, "typed nodes"; IPLD HashMap).
#![tactic(auto)]

mod finding;
mod roots;
mod running;
mod typed_roots;
mod work;

pub use typed_roots::TypedRoots;
