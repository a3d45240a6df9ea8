//! The first cause for which names with values are no struct's.
ghost use Rattle.std.specs.List.{list_any};
ghost use Rattle.std.specs.Prelude.{◌≡◌, ◌<◌, ◌≤◌, ◌&&◌, ℕ, List, length, nat_eq, not, option_map};
ghost use Rattle.ild_data.specs.Data.{Data};
ghost use Rattle.ild_layer_piece.specs.Answers.{told};
ghost use Rattle.ild_schema.specs.Clear.{AreNamesApart};
ghost use Rattle.ild_typed.specs.StructWhy.{lacks_field, must_stand};
ghost use Rattle.ild_layer_fields.specs.Causes.{Noted, first_cause, NotesEntry, NotesName, NotesPlaced, TellsCause};
ghost use Rattle.ild_layer_fields.specs.Notes.{IsNoted};

use crate::fields::{Fields, is_implicit_at};
use crate::notes::Notes;
use ild_cbor::{Piece, Why};
use ild_schema::Field;

impl Notes {
    /// One name more.
    pub(crate) fn note_name(&mut self, fields: &Fields<'_>, name: &str)
        ensures { NotesName fields.now.def.now.fields name.now self.old self.new }
    {
        let place = fields.place_left(name, self);
        self.note(place, fields.def.fields.len());
    }

    /// One name with a value more.
    pub(crate) fn note_entry(&mut self, fields: &Fields<'_>, name: &str, value: &Piece<'_>)
        ensures { NotesEntry fields.now.def.now.fields name.now value.now self.old self.new }
    {
        let place = fields.place_left(name, self);
        self.note_placed(fields, place, value);
    }

    /// The same, at the place of the name's field.
    #[inline(always)]
    pub(crate) fn note_placed(&mut self, fields: &Fields<'_>, place: usize, value: &Piece<'_>)
        requires { place ≤ length fields.now.def.now.fields }
        ensures { NotesPlaced fields.now.def.now.fields place value.now self.old self.new }
    {
        self.needless |= is_implicit_at(fields.def.fields.as_slice(), place, value);
        self.note(place, fields.def.fields.len());
    }

    // Whether a field must be written, and was not met at its place.
    fn misses(&self, place: usize, field: &Field) -> bool
        requires { place < 1024 }
        ensures { (count : ℕ) (ns : List ℕ) → IsNoted count self.now ns → place < count → result ≡ (must_stand field.now && not (list_any (λ n. nat_eq place n) ns)) }
    {
        must_stand(field) && !self.has_met(place)
    }

    // Whether a field that must be written is not.
    fn lacks(&self, fields: &[Field]) -> bool
        requires { length fields.now ≤ 1024 }
        ensures { AreNamesApart fields.now → (ks : List (List ℕ)) (es : List (List ℕ × Data)) → Noted fields.now ks es self.now → result ≡ lacks_field fields.now ks }
    {
        for (i, field) in fields.iter().enumerate() {
            if self.misses(i, field) {
                return true;
            }
        }
        false
    }

    /// The first cause for which the names with values are none of the fields, where parts may be too many or too few, and
    /// the order may matter.
    pub fn first_cause(&self, fields: &[Field], miscounted: bool, ordered: bool) -> Option<Why>
        requires { length fields.now ≤ 1024 }
        ensures { TellsCause fields.now self.now miscounted ordered (option_map told result) }
    {
        let causes = Causes {
            name: self.stranger,
            missing: self.lacks(fields),
            count: miscounted,
            order: ordered & self.falls,
            repeat: self.twice,
            implicit: self.needless,
        };
        causes.first()
    }
}

// Which causes hold.
#[derive(Clone, Copy)]
struct Causes {
    name: bool,
    missing: bool,
    count: bool,
    order: bool,
    repeat: bool,
    implicit: bool,
}

impl Causes {
    // The first of them.
    fn first(&self) -> Option<Why>
        ensures { option_map told result ≡ first_cause self.now.name self.now.missing self.now.count self.now.order self.now.repeat self.now.implicit }
    {
        if self.name {
            return Some(Why::Name);
        }
        if self.missing {
            return Some(Why::Missing);
        }
        if self.count {
            return Some(Why::Count);
        }
        if self.order {
            return Some(Why::Order);
        }
        if self.repeat {
            return Some(Why::Repeat);
        }
        if self.implicit {
            return Some(Why::Implicit);
        }
        None
    }
}

// Whether a field must be written: it is not optional, and nothing stands for it where it is left out.
fn must_stand(field: &Field) -> bool
    ensures { result ≡ must_stand field.now }
{
    !field.optional && field.implicit.is_none()
}
