//! Paths.
ghost use Rattle.std.specs.Prelude.{◌≡◌, ◌++◌, ◌∷◌, [], length, OnOk, OnErr, option_map, slice_get};

use crate::Txt;
use std::alloc::{AllocError, Global};
use std::marker::Model;

/// A path: the list of its segments, from the root on.
#[derive(Drop)]
pub struct Path {
    segments: Vec<Txt>,
}

impl Model for Path {
    ghost use Rattle.std.specs.Prelude.{List, ℕ};

    ghost Value = { List (List ℕ) };

    ghost view = { λ a. a.segments.items };
}

impl Path {
    /// The path of the root: no segment.
    pub fn new(alloc: Global) -> Path
        ensures { result ≡ [] }
    {
        Path {
            segments: Vec::new(alloc),
        }
    }

    /// The path of these segments, which are taken over.
    pub fn from_vec(segments: Vec<Txt>) -> Path
        ensures { result ≡ segments.items }
    {
        Path { segments }
    }

    /// The segments, without a copy.
    pub fn into_vec(self) -> Vec<Txt>
        ensures { result.items ≡ self }
    {
        self.segments
    }

    /// How many segments there are.
    pub fn len(&self) -> usize
        ensures { result ≡ length self.now }
    {
        self.segments.len()
    }

    /// The segment at a place, or `None` past the last.
    pub fn get(&self, i: usize) -> Option<&Txt>
        ensures { option_map (λ t. t.now) result ≡ slice_get self.now i }
    {
        if i < self.segments.len() {
            Some(&self.segments[i])
        } else {
            None
        }
    }

    /// The segments as a borrow.
    pub fn as_slice(&self) -> &[Txt]
        ensures { result.now ≡ self.now }
    {
        &self.segments
    }

    /// Appends a segment.
    pub fn push(&mut self, segment: Txt) -> Result<(), AllocError>
        ensures ok { OnOk result (self.new ≡ self.old ++ segment ∷ []) }
        ensures err { OnErr result (self.new ≡ self.old) }
    {
        self.segments.push(segment)?;
        Ok(())
    }
}
