//! Keys of pairs, of which none may stand twice.
ghost use Rattle.std.specs.Prelude.{◌≡◌, ◌||◌, ℕ, List, IfOk, OnOk, not};
ghost use Rattle.ild_data.specs.Key.{same_text};
ghost use Rattle.ild_typed.specs.Named.{has_twice, is_among, names};
ghost use Rattle.ild_layer_fields.specs.Entries.{text_entries};
ghost use Rattle.ild_text.specs.Parts.{pairs_in};
ghost use Rattle.ild_layer_pairs.specs.inside.Keys.{texts};

use ild_text::PairParts;
use std::alloc::{AllocError, Global};
use std::collections::BTreeSet;

/// Whether a key wasn't met before. From now on it was.
pub(crate) fn is_new<'b>(seen: &mut BTreeSet<&'b str>, key: &'b str) -> Result<bool, AllocError>
    ensures known { IfOk result (λ new. new ≡ not (is_among key.entry.now (texts seen.old))) }
    ensures more { OnOk result ((q : List ℕ) → is_among q (texts seen.new) ≡ (same_text q key.entry.now || is_among q (texts seen.old))) }
{
    match seen.insert(key) {
        Ok(new) => Ok(new),
        Err(_) => Err(AllocError),
    }
}

/// Whether a key of these pairs stands twice.
pub fn repeats_text(alloc: Global, split: &PairParts<'_>) -> Result<bool, AllocError>
    ensures { IfOk result (λ twice. twice ≡ has_twice (names (text_entries (pairs_in split.now)))) }
{
    let mut seen = BTreeSet::new(alloc);
    let mut left = *split;
    while let Some(((key, _), behind)) = left.split_first() {
        match is_new(&mut seen, key) {
            Ok(new) => {
                if !new {
                    return Ok(true);
                }
            }
            Err(fault) => return Err(fault),
        }
        left = behind;
    }
    Ok(false)
}
