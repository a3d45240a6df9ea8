//! What is wrong with a schema.
ghost use Rattle.std.specs.Prelude.{◌≡◌};
ghost use Rattle.ild_compile.specs.Line.{flaw_text, rule_text};
ghost use Rattle.ild_compile.specs.declared.error.CompileErr.TheVariants.{Memory};

use ild_schema::Rule;
use std::alloc::{AllocError, AllocFailed};

/// What is wrong with a schema: of its tokens, of its grammar, of its names, or by the rules of accepted schemas.
#[derive(Clone, Copy, Debug, PartialEq, Eq)]
pub enum Flaw {
    /// A byte with which no token begins, or at which the text stops being UTF-8.
    Char,
    /// A text that doesn't end on its line.
    Unended,
    /// A token with which no text of the grammar goes on.
    Syntax,
    /// A name that is taken.
    Twice,
    /// A name that stands for no type.
    Unknown,
    /// Floats, which no value here has.
    Float,
    /// A type that is a copy of itself.
    CopyCycle,
    /// Another advanced layout than `HAMT`, or one of no shape (`HAMT_wW_bB`).
    Advanced,
    /// More types or parts than there may be.
    Many,
    /// A rule of accepted schemas that fails.
    Rule(Rule),
}

/// The first fault of a schema, at its byte.
#[derive(Clone, Copy, Debug, PartialEq, Eq)]
pub struct SchemaFault {
    pub flaw: Flaw,
    pub at: usize,
}

/// Why a schema has no accepted table.
#[derive(Clone, Copy, Debug, PartialEq, Eq)]
pub enum CompileErr {
    Fault(SchemaFault),
    Memory,
}

fn rule_text(rule: Rule) -> &'static str
    ensures { result.now ≡ rule_text rule }
{
    match rule {
        Rule::Cycle => "accept 1 cycle",
        Rule::NullClash => "accept 2 nullclash",
        Rule::KindClash => "accept 3 kindclash",
        Rule::PrefixClash => "accept 4 prefixclash",
        Rule::Delim => "accept 5 delim",
        Rule::NotText => "accept 6 nottext",
        Rule::OptionalPlace => "accept 7 optionalplace",
        Rule::Implicit => "accept 8 implicit",
        Rule::NameClash => "accept 9 nameclash",
        Rule::InlineMember => "accept 10 inlinemember",
        Rule::MapKey => "accept 11 mapkey",
        Rule::Strategy => "accept 12 strategy",
    }
}

impl Flaw {
    /// The stage, the number and the name of the flaw, as a fault's line has them.
    pub fn text(self) -> &'static str
        ensures { result.now ≡ flaw_text self }
    {
        match self {
            Flaw::Char => "lex 1 char",
            Flaw::Unended => "lex 2 unended",
            Flaw::Syntax => "parse 1 syntax",
            Flaw::Twice => "resolve 1 twice",
            Flaw::Unknown => "resolve 2 unknown",
            Flaw::Float => "resolve 3 float",
            Flaw::CopyCycle => "resolve 4 copycycle",
            Flaw::Advanced => "resolve 5 advanced",
            Flaw::Many => "resolve 6 many",
            Flaw::Rule(rule) => rule_text(rule),
        }
    }
}

impl From<AllocError> for CompileErr {
    ghost from_gives = { λ _ e. e ≡ Memory };

    fn from(_e: AllocError) -> CompileErr {
        CompileErr::Memory
    }
}

impl<T: Drop> From<AllocFailed<T>> for CompileErr {
    ghost from_gives = { λ _ e. e ≡ Memory };

    fn from(_e: AllocFailed<T>) -> CompileErr {
        CompileErr::Memory
    }
}
