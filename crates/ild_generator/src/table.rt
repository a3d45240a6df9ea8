//! The schema of the generator.
ghost use Rattle.std.specs.Prelude.{◌≡◌, IfSome};
ghost use Rattle.ild_generator.specs.Schema.{generator_rows};

use crate::laws::schema_is_its_text;
use ild_compile::{CompileErr, compile, one_verdict};
use ild_schema::Accepted;
use std::alloc::Global;

/// The schema, or none where memory is wanting.
pub fn schema(alloc: Global) -> Option<Accepted>
    ensures { IfSome result (λ schema. schema ≡ generator_rows) }
{
    // They do no work: their clauses say to what the text is compiled, and that it is compiled to nothing else.
    schema_is_its_text();
    one_verdict();
    match compile(alloc, b"type G {String:Int} representation advanced HAMT") {
        Ok(schema) => Some(schema),
        Err(CompileErr::Memory) => None,
        Err(CompileErr::Fault(_)) => unreachable!(),
    }
}
