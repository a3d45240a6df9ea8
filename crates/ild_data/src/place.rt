//! Where a key stands among rising keys.
ghost use Rattle.std.specs.Prelude.{◌≡◌, ◌∷◌, ◌<◌, ◌≤◌, ℕ, Some, None, map, insert, remove, slice_set, slice_get, option_map, length, IfOk, IfErr, OnOk, OnErr};
ghost use Rattle.ild_data.specs.Key.{Rises, put, value_at, without};
ghost use Rattle.ild_data.specs.Seen.{pair_of, data_of};

use crate::key::key_order;
use crate::{Tree, Txt};
use std::alloc::AllocError;

/// Where the key stands among pairs under rising keys (`Ok`), or where it would be inserted (`Err`), by binary search.
pub fn key_place<V>(pairs: &[(Txt, V)], key: &str) -> Result<usize, usize>
    requires { Rises pairs.now }
    ensures found { IfOk result (λ i. i < length pairs.now) }
    ensures place { IfErr result (λ i. i ≤ length pairs.now) }
    ensures same { IfOk result (λ i. option_map (λ p. p.0) (slice_get pairs.now i) ≡ Some key.now) }
    ensures value { IfOk result (λ i. value_at key.now pairs.now ≡ option_map (λ p. p.1) (slice_get pairs.now i)) }
    ensures absent { IfErr result (λ _. value_at key.now pairs.now ≡ None) }
    ensures set { IfOk result (λ i. (v : V) → put key.now v pairs.now ≡ slice_set pairs.now i (key.now, v)) }
    ensures inserted { IfErr result (λ i. (v : V) → put key.now v pairs.now ≡ insert pairs.now i (key.now, v)) }
    ensures kept { IfErr result (λ _. without key.now pairs.now ≡ pairs.now) }
    ensures removed { IfOk result (λ i. without key.now pairs.now ≡ remove pairs.now i) }
{
    pairs.binary_search_by(|pair| key_order(pair.0.as_str(), key))
}

/// Sets a key among pairs under rising keys.
pub(crate) fn put_pair(pairs: &mut Vec<(Txt, Tree)>, key: Txt, tree: Tree) -> Result<(), AllocError>
    requires { Rises pairs.old.items }
    ensures ok { OnOk result (map pair_of pairs.new.items ≡ put key (data_of tree) (map pair_of pairs.old.items)) }
    ensures err { OnErr result (pairs.new.items ≡ pairs.old.items) }
{
    match key_place(pairs, key.as_str()) {
        Ok(i) => {
            pairs[i] = (key, tree);
        }
        Err(i) => {
            pairs.insert(i, (key, tree))?;
        }
    }
    Ok(())
}
