//! What an item is by itself.
ghost use Rattle.std.specs.Prelude.{◌≡◌, ◌<◌, ℕ, length, option_map, true, IfSome};
ghost use Rattle.ild_data.specs.Data.{Data};
ghost use Rattle.ild_data.specs.Spell.{spell};
ghost use Rattle.ild_data.specs.CidRead.{is_cid};
ghost use Rattle.ild_data.specs.CidView.{cid_bytes};
ghost use Rattle.ild_cbor.specs.Nodes.{HasData, block_of, start_of};
ghost use Rattle.ild_cbor.specs.inside.Shape.{StartsAs};
ghost use Rattle.ild_cbor.specs.Scalar.{kind_of, boolean_of, int_of, text_of, bytes_of, link_of, count_of};

use crate::kind::Kind;
use crate::node::Node;
use crate::scalar::{boolean_at, count_at, int_at, kind_at, known_text, string_at_major};
use crate::start::Start;
use ild_data::{CidRef, Int};

impl<'b> Node<'b> {
    /// The block that the item stands in.
    pub fn block(&self) -> &'b [u8]
        ensures { result.now ≡ block_of self.now }
    {
        self.block
    }

    /// Where in the block the item begins, and how many bytes it has.
    pub fn span(&self) -> (usize, usize)
        ensures start { result.0 ≡ start_of self.now }
        ensures size { (t : Data) → HasData self.now t → result.1 ≡ length (spell t) }
    {
        (self.from, self.to - self.from)
    }

    /// The bytes of the item.
    pub fn spelling(&self) -> &'b [u8]
        ensures { (t : Data) → HasData self.now t → result.now ≡ spell t }
    {
        &self.block[self.from..self.to]
    }

    // The head of the item, and the bytes of the item behind it.
    pub(crate) fn start(&self) -> Start<'b>
        ensures { (t : Data) → HasData self.now t → StartsAs result t }
    {
        Start::of(self.spelling())
    }

    /// The kind of the item.
    pub fn kind(&self) -> Kind
        ensures { (t : Data) → HasData self.now t → result ≡ kind_of t }
    {
        match self.spelling() {
            [] => Kind::Null,
            [first, ..] => kind_at(*first / 32, (*first % 32) as u64),
        }
    }

    /// The truth value, or `None` where the item is of another kind.
    pub fn boolean(&self) -> Option<bool>
        ensures { (t : Data) → HasData self.now t → result ≡ boolean_of t }
    {
        let start = self.start();
        boolean_at(start.major, start.argument)
    }

    /// The integer, or `None` where the item is of another kind.
    pub fn int(&self) -> Option<Int>
        ensures { (t : Data) → HasData self.now t → result ≡ int_of t }
    {
        let start = self.start();
        int_at(start.major, start.argument)
    }

    /// The text, or `None` where the item is of another kind.
    pub fn text(&self) -> Option<&'b str>
        ensures { (t : Data) → HasData self.now t → option_map (λ s. s.now) result ≡ text_of t }
    {
        let start = self.start();
        match string_at_major(3, start.major, start.rest) {
            Some(bytes) => Some(known_text(bytes)),
            None => None,
        }
    }

    /// The byte string, or `None` where the item is of another kind.
    pub fn bytes(&self) -> Option<&'b [u8]>
        ensures { (t : Data) → HasData self.now t → option_map (λ s. s.now) result ≡ bytes_of t }
    {
        let start = self.start();
        string_at_major(2, start.major, start.rest)
    }

    // The binary CID of a link.
    fn cid(&self) -> Option<&'b [u8]>
        ensures form { IfSome result (λ s. is_cid s.now ≡ true) }
        ensures same { (t : Data) → HasData self.now t → option_map (λ s. s.now) result ≡ link_of t }
    {
        let start = self.start();
        if start.major != 6 {
            return None;
        }
        let string = Start::of(start.rest).rest;
        match string {
            [] => None,
            [_, cid @ ..] => Some(cid),
        }
    }

    /// The CID of a link, or `None` where the item is of another kind.
    pub fn link(&self) -> Option<CidRef<'b>>
        ensures { (t : Data) → HasData self.now t → option_map cid_bytes result ≡ link_of t }
    {
        match self.cid() {
            Some(cid) => Some(CidRef::known(cid)),
            None => None,
        }
    }

    /// How many parts a list or a map has, or `None` where the item is of another kind.
    pub fn count(&self) -> Option<u64>
        ensures { (t : Data) → HasData self.now t → result ≡ count_of t }
    {
        let start = self.start();
        count_at(start.major, start.argument)
    }
}
