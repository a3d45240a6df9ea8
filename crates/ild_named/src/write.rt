//! Writing a root that names its schema.
ghost use Rattle.std.specs.Prelude.{◌≡◌, IfOk};
ghost use Rattle.ild_data.specs.Data.{Data};
ghost use Rattle.ild_data.specs.Spell.{spell};
ghost use Rattle.ild_named.specs.Named.{named_data, schema_block};

use ild_data::{BlockId, Octets};
use ild_emit::Emit;
use std::alloc::{AllocError, Global};

/// The block of a schema's text.
pub fn schema_block(alloc: Global, source: &str) -> Result<Octets, AllocError>
    ensures { IfOk result (λ out. out ≡ schema_block source.now) }
{
    let mut out = Emit::new(alloc);
    out.text(source)?;
    Ok(out.finish())
}

/// The root over data that these bytes spell. It names their type, and the schema by the id of its text's block.
pub fn named_block(
    alloc: Global,
    name: &str,
    schema: &BlockId,
    value: &[u8],
) -> Result<Octets, AllocError>
    ensures { (d : Data) → value.now ≡ spell d → IfOk result (λ out. out ≡ spell (named_data name.now schema.now.0 d)) }
{
    let mut out = Emit::new(alloc);
    out.head(5, 3)?;
    out.text("type")?;
    out.text(name)?;
    out.text("value")?;
    out.spelled(value)?;
    out.text("schema")?;
    out.block_link(schema)?;
    Ok(out.finish())
}
