//! What a place is made of.
use crate::place::{End, Place};
use crate::verb::Verb;
use ild_path_hops::Hop;
use ild_view::View;

/// What a place is made of: the view of the root, what is to be done, the HAMTs on the way, and how the path ends in the innermost block.
#[derive(Drop)]
pub struct Parts<'b> {
    pub root: View<'b>,
    pub verb: Verb,
    pub hops: Vec<Hop<'b>>,
    pub end: End<'b>,
}

impl<'b> Place<'b> {
    ghost use Rattle.std.specs.Prelude.{◌≡◌};
    ghost use Rattle.ild_path_place.specs.Parts.{ArePartsOf, end_in, hops_in, verb_in};
    ghost use Rattle.ild_path_place.specs.Tells.{root_at};

    /// Takes the place apart.
    pub fn into_parts(self) -> Parts<'b>
        ensures { ArePartsOf self.entry result }
    {
        let Place {
            root,
            verb,
            hops,
            end,
            slot: _,
            key_fits: _,
            room: _,
            hole: _,
        } = self;
        Parts {
            root,
            verb,
            hops,
            end,
        }
    }

    /// The view of the value in which the place is.
    pub fn root(&self) -> &View<'b>
        ensures { result.now ≡ root_at self.now }
    {
        &self.root
    }

    /// What is to be done there.
    pub fn verb(&self) -> Verb
        ensures { result ≡ verb_in self.now }
    {
        self.verb
    }

    /// The HAMTs on the way.
    pub fn hops(&self) -> &[Hop<'b>]
        ensures { result.now ≡ hops_in self.now }
    {
        &self.hops
    }

    /// How the path ends in the innermost block.
    pub fn end(&self) -> &End<'b>
        ensures { result.now ≡ end_in self.now }
    {
        &self.end
    }
}
