//! Trees of the IPLD data model.
ghost use Rattle.std.specs.Prelude.{option_map, slice_get, map, ◌≡◌, ◌++◌, ◌∷◌, [], length, OnOk, OnErr};

use crate::place::put_pair;
use crate::{Cid, Int, Octets, Txt};
use std::alloc::{AllocError, Global};
use std::marker::Model;

/// A value of the IPLD data model, without floats.
#[cycle(tree)]
#[derive(Drop)]
pub enum Tree {
    Null,
    Bool(bool),
    Int(Int),
    Text(Txt),
    Bytes(Octets),
    List(Trees),
    Map(Entries),
    Link(Cid),
}

/// The items of a list.
#[cycle(tree)]
#[derive(Drop)]
pub struct Trees {
    pub(crate) items: Vec<Tree>,
}

/// The entries of a map, whose keys rise strictly in the key order.
#[cycle(tree)]
#[derive(Drop)]
pub struct Entries {
    pub(crate) pairs: Vec<(Txt, Tree)>,
}

impl Model for Trees {
    ghost use Rattle.ild_data.specs.Data.{Items, items_depth};
    ghost use Rattle.ild_data.specs.DataCode.{items_code};

    ghost Value = { Items };

    ghost coded = { items_code };

    ghost use Rattle.ild_data.specs.Seen.{items_seen};

    ghost view = { items_seen };

    ghost use Rattle.ild_data.specs.Tree.{AreTrees};

    ghost invariant = { λ a. AreTrees (items_seen a) };

    ghost size = { items_depth };

    ghost use Rattle.std.proofs.Common.{arith};
    ghost use Rattle.ild_data.specs.Falls.{most_le-items};

    ghost size_decreases = { λ a h. omega (arith, most_le-items a.items.items) };
}

impl Model for Entries {
    ghost use Rattle.ild_data.specs.Data.{Members, members_depth};
    ghost use Rattle.ild_data.specs.DataCode.{members_code};

    ghost Value = { Members };

    ghost coded = { members_code };

    ghost use Rattle.ild_data.specs.Seen.{members_seen};

    ghost view = { members_seen };

    ghost use Rattle.ild_data.specs.Tree.{AreEntries};

    ghost invariant = { λ a. AreEntries (members_seen a) };

    ghost size = { members_depth };

    ghost use Rattle.std.proofs.Common.{arith};
    ghost use Rattle.ild_data.specs.Falls.{most_le-members};

    ghost size_decreases = { λ a h. omega (arith, most_le-members a.pairs.items) };
}

impl Tree {
    ghost use Rattle.ild_data.specs.Seen.{data_of};
    ghost use Rattle.ild_data.specs.Tree.{IsTree};

    /// Every tree is one by its data; a caller that needs the fact makes this call, which does no work.
    pub fn well_formed(&self)
        ensures { IsTree (data_of self.now) }
    {
        match self {
            Tree::Null => {}
            Tree::Bool(_) => {}
            Tree::Int(n) => {
                let _ = n.get();
            }
            Tree::Text(text) => {
                let _ = text.as_str();
            }
            Tree::Bytes(bytes) => {
                let _ = bytes.as_slice();
            }
            Tree::List(trees) => {
                let _ = trees.len();
            }
            Tree::Map(entries) => {
                let _ = entries.len();
            }
            Tree::Link(cid) => {
                let _ = cid.as_slice();
            }
        }
    }
}

#[tactic(auto, using(crate::proofs::Lists::data_lists))]
impl Trees {
    ghost use Rattle.ild_data.specs.Data.{no_items, items_list};
    ghost use Rattle.ild_data.specs.Tree.{AreTrees};
    ghost use Rattle.ild_data.specs.Seen.{data_of};

    /// No item.
    pub fn new(alloc: Global) -> Trees
        ensures { result ≡ no_items }
    {
        Trees {
            items: Vec::new(alloc),
        }
    }

    /// The list of these items, which are taken over.
    pub fn from_vec(items: Vec<Tree>) -> Trees
        ensures { items_list result ≡ map data_of items.items }
    {
        for tree in &items {
            tree.well_formed();
        }
        Trees { items }
    }

    /// The items, without a copy.
    pub fn into_vec(self) -> Vec<Tree>
        ensures { map data_of result.items ≡ items_list self }
    {
        self.items
    }

    /// How many items there are.
    pub fn len(&self) -> usize
        ensures count { result ≡ length (items_list self.now) }
        ensures well_formed { AreTrees self.now }
    {
        self.items.len()
    }

    /// The item at a place, or `None` past the last.
    pub fn get(&self, i: usize) -> Option<&Tree>
        ensures { option_map (λ t. data_of t.now) result ≡ slice_get (items_list self.now) i }
    {
        if i < self.items.len() {
            Some(&self.items[i])
        } else {
            None
        }
    }

    /// The items as a borrow.
    pub fn as_slice(&self) -> &[Tree]
        ensures { map data_of result.now ≡ items_list self.now }
    {
        &self.items
    }

    /// Appends an item.
    pub fn push(&mut self, tree: Tree) -> Result<(), AllocError>
        ensures ok { OnOk result (items_list self.new ≡ items_list self.old ++ data_of tree ∷ []) }
        ensures err { OnErr result (self.new ≡ self.old) }
    {
        tree.well_formed();
        self.items.push(tree)?;
        Ok(())
    }
}

#[tactic(auto, using(crate::proofs::Lists::data_lists))]
impl Entries {
    ghost use Rattle.ild_data.specs.Data.{no_members, members_list};
    ghost use Rattle.ild_data.specs.Tree.{AreEntries};
    ghost use Rattle.ild_data.specs.Seen.{data_of, pair_of};
    ghost use Rattle.ild_data.specs.Key.{put, Rises};

    /// No entry.
    pub fn new(alloc: Global) -> Entries
        ensures { result ≡ no_members }
    {
        Entries {
            pairs: Vec::new(alloc),
        }
    }

    /// The map of these entries, which are taken over, under rising keys.
    pub fn from_vec(pairs: Vec<(Txt, Tree)>) -> Entries
        requires { Rises (map pair_of pairs.items) }
        ensures { members_list result ≡ map pair_of pairs.items }
    {
        for pair in &pairs {
            let _text = pair.0.as_str();
            pair.1.well_formed();
        }
        Entries { pairs }
    }

    /// The entries in the key order, without a copy.
    pub fn into_vec(self) -> Vec<(Txt, Tree)>
        ensures same { map pair_of result.items ≡ members_list self }
        ensures rises { Rises (map pair_of result.items) }
    {
        self.pairs
    }

    /// How many entries there are.
    pub fn len(&self) -> usize
        ensures count { result ≡ length (members_list self.now) }
        ensures well_formed { AreEntries self.now }
    {
        self.pairs.len()
    }

    /// The entry at a place in the key order, or `None` past the last.
    pub fn get(&self, i: usize) -> Option<(&Txt, &Tree)>
        ensures { option_map (λ p. (p.0.now, data_of p.1.now)) result ≡ slice_get (members_list self.now) i }
    {
        if i < self.pairs.len() {
            let pair = &self.pairs[i];
            Some((&pair.0, &pair.1))
        } else {
            None
        }
    }

    /// The entries as a borrow, in the key order.
    pub fn as_slice(&self) -> &[(Txt, Tree)]
        ensures { map pair_of result.now ≡ members_list self.now }
    {
        &self.pairs
    }

    /// Sets a key.
    pub fn put(&mut self, key: Txt, tree: Tree) -> Result<(), AllocError>
        ensures ok { OnOk result (members_list self.new ≡ put key (data_of tree) (members_list self.old)) }
        ensures err { OnErr result (self.new ≡ self.old) }
    {
        tree.well_formed();
        let _text = key.as_str();
        put_pair(&mut self.pairs, key, tree)?;
        Ok(())
    }
}
