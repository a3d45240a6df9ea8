//! Walking over the entries of a HAMT, one at a time.
ghost use Rattle.std.specs.Prelude.{◌≡◌, ◌+◌, ◌≤◌, length};
ghost use Rattle.ild_data.specs.TrieShape.{trie_levels};
ghost use Rattle.ild_bulk_walker.specs.Steps.{path_of};
ghost use Rattle.ild_bulk_walker.specs.Todo.{agrees};

use crate::due::Due;
use crate::fetch::{fetch, root_steps};
use crate::row::Row;
use crate::step::{Child, Entry, Step};
use ild_cbor::{BlockWhy, Why};
use ild_data::{BlockId, HamtShape, KeyHash};
use ild_edges::Store;
use ild_node_slots::{HamtFault, NodeView, has_level, index_of};
use std::alloc::{AllocError, Global};

/// A walk over the entries of a HAMT in the order of its trie: by index, and bytewise by key inside a bucket. It keeps what is
/// still to be done in the nodes on its way, with the blocks in which their entries stand, and borrows nothing.
#[derive(Drop)]
pub struct Walker {
    pub(crate) alloc: Global,
    pub(crate) at: BlockId,
    pub(crate) shape: HamtShape,
    pub(crate) steps: Vec<Step>,
    pub(crate) path: Vec<Child>,
    pub(crate) given: u64,
}

// Whether a hash has the indices of a path, the first of them at a depth.
fn agrees(shape: HamtShape, hash: &[u8; 32], depth: u32, path: &[Child]) -> bool
    requires { depth + length path.now ≤ trie_levels shape }
    ensures { result ≡ agrees shape hash.now depth (path_of path.now) }
{
    match path {
        [] => true,
        [first, rest @ ..] => {
            index_of(hash, depth, shape) == first.index && agrees(shape, hash, depth + 1, rest)
        }
    }
}

impl Walker {
    ghost use Rattle.std.specs.Prelude.{◌≡◌, ◌+◌, ◌<◌, List, length, IfOk, OnOk};
    ghost use Rattle.ild_data.specs.declared.hamt_shape.HamtShape.{HamtShape};
    ghost use Rattle.ild_data.specs.TrieShape.{trie_levels};
    ghost use Rattle.ild_data.specs.Trie.{TrieSlot};
    ghost use Rattle.ild_node_slots.specs.Views.{HasSlots, view_shape};
    ghost use Rattle.ild_bulk_walker.specs.Todo.{enter, fits, leave};
    ghost use Rattle.ild_bulk_walker.specs.Steps.{entry_key};
    ghost use Rattle.ild_bulk_walker.specs.Ahead.{IsNew, IsNewLeft, IsNewOn, Nexts, walker_path, walker_shape, walker_todo};
    ghost use Rattle.ild_bulk_walker.specs.inside.Stepping.{AnyRow, Enters, Gives, GivesNext, IsDue, IsFaultAt, IsNextRow, IsPast, IsReady, Judges, IsTrieFault, Leaves, NextIs, EntersChild, PassesStep, Readies, TakesRow, walker_here};

    /// A walk beneath a root, which stands in the block of this id.
    pub fn new(alloc: Global, root: NodeView<'_>, at: BlockId) -> Result<Walker, AllocError>
        ensures ahead { (p : HamtShape) (slots : List TrieSlot) → HasSlots p root.entry slots → IfOk result (IsNew p slots) }
        ensures shape { IfOk result (λ w. walker_shape w ≡ view_shape root.entry) }
        ensures given { IfOk result (λ w. w.given ≡ 0) }
        ensures on { (p : HamtShape) (slots : List TrieSlot) → HasSlots p root.entry slots → IfOk result (IsNewOn p slots at.0) }
        ensures reads { (p : HamtShape) (slots : List TrieSlot) → HasSlots p root.entry slots → IfOk result (IsNewLeft p slots) }
    {
        let steps = root_steps(alloc, root)?;
        Ok(Walker {
            alloc,
            at,
            shape: root.shape(),
            steps,
            path: Vec::new(alloc),
            given: 0,
        })
    }

    /// How many entries were given.
    pub fn given(&self) -> u64
        ensures { result ≡ self.now.given }
    {
        self.given
    }

    // The id of the block of the node on whose steps the walk is.
    fn here(&self) -> BlockId
        ensures { result.0 ≡ walker_here self.now }
    {
        match self.path.last() {
            Some(child) => child.id,
            None => self.at,
        }
    }

    // That node isn't one of a trie.
    fn fault(&self) -> HamtFault
        ensures trie { IsTrieFault result }
        ensures here { IsFaultAt (walker_here self.now) result }
    {
        HamtFault::Block {
            id: self.here(),
            why: BlockWhy::Shape(Why::Trie),
        }
    }

    // What is to be done next.
    fn due(&self) -> Due
        ensures { IsDue (walker_todo self.now) result }
    {
        match self.steps.last() {
            Some(Step::Give(_)) => Due::Give,
            Some(Step::Enter(child)) => Due::Enter(*child),
            Some(Step::Leave(before)) => Due::Leave(*before),
            None => Due::End,
        }
    }

    // Leaves a node, of which all is given. It has to have more entries than a bucket takes.
    fn leave(&mut self, before: u64) -> Result<(), HamtFault>
        requires { NextIs (leave before) self.old }
        ensures leaves { Leaves (walker_shape self.old) self.old result self.new }
        ensures shape { walker_shape self.new ≡ walker_shape self.old }
        ensures shorter { OnOk result (length self.new.path.items < length self.old.path.items) }
    {
        if self.given.saturating_sub(before) <= self.shape.bucket as u64 {
            return Err(self.fault());
        }
        if self.path.is_empty() {
            return Err(self.fault());
        }
        self.steps.pop();
        self.path.pop();
        Ok(())
    }

    // Leaves the nodes of which all is given.
    fn leave_done(&mut self) -> Result<(), HamtFault>
        ensures left { Leaves (walker_shape self.old) self.old result self.new }
        ensures shape { walker_shape self.new ≡ walker_shape self.old }
        ensures past { OnOk result (IsPast self.new.given (walker_todo self.new)) }
    {
        while let Due::Leave(before) = self.due() {
            self.leave(before)?;
        }
        Ok(())
    }

    // Puts the steps of a child in the place of entering it.
    fn open(&mut self, child: Child, steps: Vec<Step>) -> Result<(), HamtFault>
        requires { NextIs (enter child.id.0 child.index) self.old }
        ensures opens { EntersChild self.old child steps.items result self.new }
        ensures shape { walker_shape self.new ≡ walker_shape self.old }
    {
        let mut steps = steps;
        self.path.push(child)?;
        let before = self.steps.len();
        if self.steps.append(&mut steps).is_err() {
            self.path.pop();
            return Err(HamtFault::Memory);
        }
        self.steps[before - 1] = Step::Leave(self.given);
        Ok(())
    }

    // Enters a child, for which a level has to be left.
    fn enter<K: Store>(&mut self, child: Child, store: &mut K) -> Result<(), HamtFault>
        requires next { NextIs (enter child.id.0 child.index) self.old }
        requires short { length (walker_path self.old) < trie_levels (walker_shape self.old) }
        ensures enters { Enters (walker_shape self.old) 1 (K.moment store.old) self.old result self.new (K.moment store.new) }
        ensures shape { walker_shape self.new ≡ walker_shape self.old }
        ensures longer { OnOk result (length (walker_path self.new) ≡ length (walker_path self.old) + 1) }
    {
        if !has_level(self.shape, self.path.len() + 1) {
            return Err(self.fault());
        }
        let steps = fetch(self.alloc, self.shape, &child.id, store)?;
        self.open(child, steps)
    }

    // Enters children until an entry is to be given.
    fn enter_all<K: Store>(&mut self, store: &mut K) -> Result<(), HamtFault>
        requires past { IsPast self.old.given (walker_todo self.old) }
        requires short { length (walker_path self.old) < trie_levels (walker_shape self.old) }
        ensures enters { Enters (walker_shape self.old) (trie_levels (walker_shape self.old)) (K.moment store.old) self.old result self.new (K.moment store.new) }
        ensures shape { walker_shape self.new ≡ walker_shape self.old }
        ensures ready { OnOk result (IsReady self.new.given (walker_todo self.new)) }
    {
        while let Due::Enter(child) = self.due() {
            self.enter(child, store)?;
        }
        Ok(())
    }

    // Whether an entry fits its place.
    fn fits<H: KeyHash>(&self, entry: &Entry, keys: &H) -> bool
        requires { length (walker_path self.now) < trie_levels (walker_shape self.now) }
        ensures { result ≡ fits H.hash_of (walker_shape self.now) (walker_path self.now) entry.now.index (entry_key entry.now) }
    {
        let hash = keys.hash(entry.key());
        agrees(self.shape, &hash, 0, &self.path)
            && index_of(&hash, self.path.len() as u32, self.shape) == entry.index
    }

    // Whether an entry is next, which fits its place. None is next where all are given.
    fn is_next<H: KeyHash>(&self, keys: &H) -> Result<bool, HamtFault>
        requires ready { IsReady self.now.given (walker_todo self.now) }
        requires short { length (walker_path self.now) < trie_levels (walker_shape self.now) }
        ensures { Judges H.hash_of (walker_shape self.now) self.now result }
    {
        match self.steps.last() {
            None => Ok(false),
            Some(Step::Give(entry)) => {
                let fits = self.fits(entry, keys);
                if fits { Ok(true) } else { Err(self.fault()) }
            }
            Some(Step::Leave(_)) => Err(self.fault()),
            Some(Step::Enter(_)) => Err(self.fault()),
        }
    }

    // The row of the next step, which gives an entry.
    fn next_row(&self) -> Result<Row, AllocError>
        requires { GivesNext self.now }
        ensures { IfOk result (IsNextRow self.now) }
    {
        match self.steps.last() {
            Some(Step::Give(entry)) => entry.row(self.alloc, self.here()),
            Some(Step::Enter(_)) => unreachable!(),
            Some(Step::Leave(_)) => unreachable!(),
            None => unreachable!(),
        }
    }

    // Passes over the next step, which gives an entry.
    fn pass_step(&mut self) -> Result<(), HamtFault>
        requires { GivesNext self.old }
        ensures passes { PassesStep self.old result self.new }
        ensures shape { walker_shape self.new ≡ walker_shape self.old }
    {
        let Some(given) = self.given.checked_add(1) else {
            return Err(HamtFault::Memory);
        };
        self.steps.pop();
        self.given = given;
        Ok(())
    }

    // Takes the next step, which gives an entry.
    fn take_row(&mut self) -> Result<Option<Row>, HamtFault>
        requires { GivesNext self.old }
        ensures takes { TakesRow self.old result self.new }
        ensures shape { walker_shape self.new ≡ walker_shape self.old }
    {
        let row = self.next_row()?;
        self.pass_step()?;
        Ok(Some(row))
    }

    // Gives the next entry, where it fits its place.
    fn give<H: KeyHash>(&mut self, keys: &H) -> Result<Option<Row>, HamtFault>
        requires ready { IsReady self.old.given (walker_todo self.old) }
        requires short { length (walker_path self.old) < trie_levels (walker_shape self.old) }
        ensures gives { Gives H.hash_of (walker_shape self.old) self.old result self.new }
        ensures shape { walker_shape self.new ≡ walker_shape self.old }
    {
        if self.is_next(keys)? {
            return self.take_row();
        }
        Ok(None)
    }

    // The same without its row: whether there was one.
    fn pass<H: KeyHash>(&mut self, keys: &H) -> Result<bool, HamtFault>
        requires ready { IsReady self.old.given (walker_todo self.old) }
        requires short { length (walker_path self.old) < trie_levels (walker_shape self.old) }
        ensures gives { AnyRow (λ r. Gives H.hash_of (walker_shape self.old) self.old r self.new) result }
        ensures shape { walker_shape self.new ≡ walker_shape self.old }
    {
        if self.is_next(keys)? {
            self.pass_step()?;
            return Ok(true);
        }
        Ok(false)
    }

    // Leaves nodes and enters children until an entry is to be given, or nothing.
    fn ready<K: Store>(&mut self, store: &mut K) -> Result<(), HamtFault>
        ensures shape { walker_shape self.new ≡ walker_shape self.old }
        ensures readies { Readies (walker_shape self.old) (K.moment store.old) self.old result self.new (K.moment store.new) }
        ensures ready { OnOk result (IsReady self.new.given (walker_todo self.new)) }
        ensures short { OnOk result (length (walker_path self.new) < trie_levels (walker_shape self.new)) }
    {
        if !has_level(self.shape, self.path.len()) {
            return Err(self.fault());
        }
        self.leave_done()?;
        self.enter_all(store)?;
        Ok(())
    }

    /// The next entry, or `None` where all are given. A block that is refused is on the tree: the store lacks it, it is no block
    /// of DAG-CBOR, or it isn't the node that a HAMT has at its place. After an error the same entries are still ahead.
    pub fn next<K: Store, H: KeyHash>(
        &mut self,
        keys: &H,
        store: &mut K,
    ) -> Result<Option<Row>, HamtFault>
        ensures nexts { Nexts H.hash_of (walker_shape self.old) (K.moment store.old) self.old result self.new (K.moment store.new) }
        // It stays a walk of this shape.
        ensures shape { walker_shape self.new ≡ walker_shape self.old }
    {
        self.ready(store)?;
        self.give(keys)
    }

    /// The same without a copy of the entry: whether there was one.
    pub(crate) fn advance<K: Store, H: KeyHash>(
        &mut self,
        keys: &H,
        store: &mut K,
    ) -> Result<bool, HamtFault>
        ensures nexts { AnyRow (λ r. Nexts H.hash_of (walker_shape self.old) (K.moment store.old) self.old r self.new (K.moment store.new)) result }
        ensures shape { walker_shape self.new ≡ walker_shape self.old }
    {
        self.ready(store)?;
        self.pass(keys)
    }
}
