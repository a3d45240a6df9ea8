//! References to types, which nest.
use crate::TypeName;
use std::marker::Model;

/// ref = [ "nullable" ] inline, from the place of its first token, and of the first one of the inline type.
#[cycle(reference)]
#[derive(Drop)]
pub struct Ref {
    pub at: usize,
    pub nullable: bool,
    pub type_at: usize,
    pub inline: Inline,
}

/// inline = Type | "&" Type | "[" ref "]" | "{" Type ":" ref "}"
#[cycle(reference)]
#[derive(Drop)]
pub enum Inline {
    Type(TypeName),
    Link(TypeName),
    List(Box<Ref>),
    Map(TypeName, Box<Ref>),
}

impl Model for Ref {
    ghost use Rattle.ild_parse_grammar.specs.Reference.{Reference};
    ghost use Rattle.ild_parse_grammar.specs.ReferenceCode.{reference_code};

    ghost Value = { Reference };

    ghost coded = { reference_code };

    ghost use Rattle.ild_parse_grammar.specs.ReferenceSeen.{reference_seen, nesting};

    ghost view = { reference_seen };

    ghost size = { nesting };

    ghost use Rattle.std.proofs.Common.{arith};
    ghost use Rattle.ild_parse_grammar.specs.ReferenceFalls.{inline_falls};

    ghost size_decreases = { λ a h. omega (arith, inline_falls a.inline) };
}
