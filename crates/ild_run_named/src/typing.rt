//! The type that a root names.
ghost use Rattle.std.specs.Prelude.{◌≡◌, ◌<◌, IfOk, IfSome, length, option_map};
ghost use Rattle.ild_schema.specs.Names.{number_named};
ghost use Rattle.ild_run_named.specs.Types.{TypesAs};

use ild_cbor::{BlockWhy, Why};
use ild_compile::{CompileErr, compile};
use ild_data::BlockId;
use ild_open_named::{Described, OpenFault};
use ild_schema::{Accepted, TypeNo};
use std::alloc::Global;

// The type that has a name, which is in the table.
fn type_named(acc: &Accepted, name: &str) -> Option<TypeNo>
    ensures named { option_map (λ ty. ty.0) result ≡ number_named name.now acc.now }
    ensures within { IfSome result (λ ty. ty.0 < length acc.now) }
{
    acc.type_named(name)
}

/// The type that a root names, in the table of its schema. `Block` tells the schema's block where its text isn't accepted, and the root
/// where no type has the name. `Store` doesn't come.
pub fn type_of(
    alloc: Global,
    id: &BlockId,
    described: &Described,
) -> Result<(Accepted, TypeNo), OpenFault>
    ensures types { TypesAs id.now.0 described.now result }
    ensures within { IfOk result (λ x. x.1.0 < length x.0) }
{
    let acc = match compile(alloc, described.source.as_str().as_bytes()) {
        Ok(acc) => acc,
        Err(CompileErr::Fault(_)) => {
            return Err(OpenFault::Block {
                id: described.schema,
                why: BlockWhy::Shape(Why::Kind),
            });
        }
        Err(CompileErr::Memory) => return Err(OpenFault::Memory),
    };
    acc.recall();
    match type_named(&acc, described.type_name.as_str()) {
        Some(ty) => Ok((acc, ty)),
        None => Err(OpenFault::Block {
            id: *id,
            why: BlockWhy::Shape(Why::Name),
        }),
    }
}
