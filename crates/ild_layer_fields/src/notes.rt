//! What one pass over the names of a struct's parts finds.
ghost use Rattle.std.specs.Prelude.{◌≡◌, ◌+◌, ◌<◌, ◌≤◌, ◌||◌, ℕ, List, [], ◌∷◌, ◌++◌, false, nat_eq, nat_lt, max};
ghost use Rattle.std.specs.List.{list_any};
ghost use Rattle.ild_layer_fields.specs.Notes.{IsNoted, is_marked};

/// Words that have a bit for each of the 1024 fields that a type has at most, the lowest bit of the first word for the first.
type Marks = [u64; 16];

// Whether a field's bit is set.
fn is_marked(marks: &Marks, place: usize) -> bool
    requires { place < 1024 }
    ensures { result ≡ is_marked marks.now place }
{
    (marks[place / 64] >> (place % 64)) % 2 == 1
}

// Sets a field's bit.
fn mark(marks: &mut Marks, place: usize)
    requires { place < 1024 }
    ensures { (i : ℕ) → is_marked marks.new i ≡ (is_marked marks.old i || nat_eq i place) }
{
    marks[place / 64] |= 1 << (place % 64);
}

/// What was found of the names so far, of which each is the place of its field, or the number of fields where it is none's.
#[derive(Drop)]
pub struct Notes {
    /// A name is no field's.
    pub(crate) stranger: bool,
    /// A name stands before that of an earlier field.
    pub(crate) falls: bool,
    /// A field's name stands twice.
    pub(crate) twice: bool,
    /// An implicit value is written out.
    pub(crate) needless: bool,
    /// The place behind that of the last name.
    pub(crate) next: usize,
    highest: usize,
    met: Marks,
}

impl Notes {
    /// No names yet.
    pub(crate) fn new() -> Notes
        ensures noted { (count : ℕ) → count ≤ 1024 → IsNoted count result [] }
        ensures needless { result.needless ≡ false }
    {
        Notes {
            stranger: false,
            falls: false,
            twice: false,
            needless: false,
            next: 0,
            highest: 0,
            met: [0; 16],
        }
    }

    // One name's place more, in the order of the places.
    fn rise(&mut self, place: usize)
        requires { place ≤ 1024 }
        ensures { self.new ≡ record self.old { falls = self.old.falls || nat_lt place self.old.highest; next = place + 1; highest = max self.old.highest place } }
    {
        self.next = place + 1;
        self.falls |= place < self.highest;
        self.highest = self.highest.max(place);
    }

    // A field's name more.
    fn meet(&mut self, place: usize)
        requires { place < 1024 }
        ensures twice { self.new ≡ record self.old { twice = self.old.twice || is_marked self.old.met place; met = self.new.met } }
        ensures met { (i : ℕ) → is_marked self.new.met i ≡ (is_marked self.old.met i || nat_eq i place) }
    {
        self.twice |= is_marked(&self.met, place);
        mark(&mut self.met, place);
    }

    /// One name more, of so many fields.
    pub(crate) fn note(&mut self, place: usize, count: usize)
        requires most { count ≤ 1024 }
        requires within { place ≤ count }
        ensures noted { (ns : List ℕ) → IsNoted count self.old ns → IsNoted count self.new (ns ++ place ∷ []) }
        ensures same { self.new.needless ≡ self.old.needless }
    {
        self.rise(place);
        if place == count {
            self.stranger = true;
        } else {
            self.meet(place);
        }
    }

    /// Whether the field at a place was met, for a guess: no contract depends on the answer.
    pub(crate) fn may_have_met(&self, place: usize) -> bool {
        place < 1024 && is_marked(&self.met, place)
    }

    /// Whether the field at a place was met.
    pub(crate) fn has_met(&self, place: usize) -> bool
        requires { place < 1024 }
        ensures { (count : ℕ) (ns : List ℕ) → IsNoted count self.now ns → place < count → result ≡ list_any (λ n. nat_eq place n) ns }
    {
        is_marked(&self.met, place)
    }
}
