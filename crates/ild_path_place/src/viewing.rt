//! What stands at a place.
ghost use Rattle.ild_path_place.specs.Viewing.{ViewsEntry, part_there};
ghost use Rattle.ild_path_place.specs.inside.Shown.{ShowsPart};
ghost use Rattle.ild_typed.specs.At.{at};

use crate::place::{End, Place};
use crate::verb::Verb;
use ild_data::Path;
use ild_path_entry::Entry;
use ild_view::{Step, View};

// The view of the part at a path in the data of a view, where there is one.
fn part_at<'v>(view: &View<'v>, path: &Path) -> Option<View<'v>>
    ensures { ShowsPart view.now (λ rows p. at rows p path.now) result }
{
    match view.at(path, 0) {
        Ok(Step::Here(part)) => Some(part),
        Ok(Step::Enter(_, _)) => None,
        Err(_) => None,
    }
}

// The same for what is done there: where a part is to be inserted, none stands there yet.
fn part_in<'v>(view: &View<'v>, path: &Path, verb: Verb) -> Option<View<'v>>
    ensures { ShowsPart view.now (λ rows p. part_there verb rows p path.now) result }
{
    match verb {
        Verb::Set | Verb::Del => part_at(view, path),
        Verb::Ins => None,
    }
}

// The view of an entry's value, where there is an entry.
fn entry_view<'e>(entry: &'e Option<Entry<'_>>) -> Option<View<'e>>
    ensures { ViewsEntry entry.now result }
{
    match entry {
        Some(entry) => Some(entry.view()),
        None => None,
    }
}

impl<'b> Place<'b> {
    ghost use Rattle.ild_path_hops.specs.Links.{IsBehind};
    ghost use Rattle.ild_path_place.specs.Parts.{end_in, hops_in, verb_in};
    ghost use Rattle.ild_path_place.specs.Tells.{root_at};
    ghost use Rattle.ild_path_place.specs.Viewing.{ViewsPart};
    ghost use Rattle.ild_view.specs.Parts.{IsPartView};

    // The view of the whole of the innermost block's value.
    fn innermost(&self) -> View<'_>
        ensures { IsBehind (λ rows p. IsPartView rows p result) (root_at self.now) (hops_in self.now) }
    {
        match self.hops.last() {
            Some(hop) => {
                let entry = &hop.entry;
                entry.view()
            }
            None => self.root,
        }
    }

    /// The view of the part that stands at the place, by no get; `None` where none stands there yet: a part is to be inserted, or its
    /// field or key is absent.
    pub fn view(&self) -> Option<View<'_>>
        ensures { ViewsPart (root_at self.now) (hops_in self.now) (verb_in self.now) (end_in self.now) result }
    {
        match &self.end {
            End::Whole => Some(self.innermost()),
            End::InBlock(path) => part_in(&self.innermost(), path, self.verb),
            End::AtKey(_, _, entry) => entry_view(entry),
        }
    }
}
