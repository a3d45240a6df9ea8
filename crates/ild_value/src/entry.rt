//! Entries of a map that is taken over.
ghost use Rattle.std.specs.Prelude.{◌≡◌, ◌≢◌, ℕ, List, option_map};
ghost use Rattle.ild_data.specs.Key.{Rises, value_at};
ghost use Rattle.ild_data.specs.Seen.{pair_of};
ghost use Rattle.ild_value.specs.inside.Parts.{only_member};

use ild_data::{Entries, Tree, Txt, key_place};
use std::mem;

/// Takes the value at a key, by binary search, and leaves null in its place.
pub(crate) fn take_value(pairs: &mut Vec<(Txt, Tree)>, key: &str) -> Option<Tree>
    requires { Rises pairs.old.items }
    ensures found { result ≡ value_at key.now pairs.old.items }
    ensures rises { Rises pairs.new.items }
    ensures others { (k : List ℕ) → key.now ≢ k → value_at k pairs.new.items ≡ value_at k pairs.old.items }
{
    match key_place(pairs, key) {
        Ok(i) => Some(mem::replace(&mut pairs[i].1, Tree::Null)),
        Err(_) => None,
    }
}

/// The entry of a map that has no other.
pub(crate) fn only(entries: Entries) -> Option<(Txt, Tree)>
    ensures { option_map pair_of result ≡ only_member entries }
{
    let mut pairs = entries.into_vec();
    if pairs.len() == 1 { pairs.pop() } else { None }
}
