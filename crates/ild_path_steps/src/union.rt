//! The members of unions.
ghost use Rattle.std.specs.Prelude.{◌<◌, length};
ghost use Rattle.ild_path_steps.specs.Steps.{LeadsMember, LiftsMember};

use crate::steps::PartSteps;
use ild_schema::{Mark, UnionDef, UnionForm};

/// The steps to the member with a number. A union whose member has a prefix is replaced.
pub(crate) fn union_steps<'a>(def: &'a UnionDef, number: usize) -> Option<PartSteps<'a>>
    requires { number < length def.now.members }
    ensures lifts { LiftsMember def.now number result }
    ensures leads { LeadsMember def.now number result }
{
    match &def.form {
        UnionForm::Keyed => match &def.members.as_slice()[number].mark {
            Mark::Text(text) => Some(PartSteps::Entry(text.as_str())),
            Mark::Bare | Mark::Kind(_) => None,
        },
        UnionForm::Kinded => Some(PartSteps::Same),
        UnionForm::Envelope(_, content) => Some(PartSteps::Entry(content.as_str())),
        UnionForm::Inline(key) => Some(PartSteps::Beside(key.as_str())),
        UnionForm::StringPrefix | UnionForm::BytesPrefix => Some(PartSteps::Whole),
    }
}
