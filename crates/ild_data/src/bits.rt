//! Bits on their way from groups of one width to groups of another.
ghost use Rattle.std.specs.Prelude.{◌≡◌, ℕ, ◌+◌, ◌^◌, ◌<◌, ◌≤◌, ◌++◌, [], length};
ghost use Rattle.ild_data.specs.Base32.{bits};
ghost use Rattle.ild_data.specs.CidTextRead.{is_filling};

use std::marker::Model;

/// Fewer than 16 bits, which contracts see as a list, the most significant first.
#[derive(Drop)]
pub(crate) struct Bits {
    number: u32,
    count: u32,
}

impl Model for Bits {
    ghost use Rattle.std.specs.Prelude.{List, ℕ, ◌^◌, ◌<◌};
    ghost use Rattle.ild_data.specs.Base32.{bits};

    ghost Value = { List ℕ };

    ghost view = { λ a. bits a.count a.number };

    ghost invariant = { λ a. (a.count < 16) × (a.number < 2 ^ a.count) };
}

impl Bits {
    /// No bits.
    pub(crate) fn new() -> Bits
        ensures { result ≡ [] }
    {
        Bits {
            number: 0,
            count: 0,
        }
    }

    /// How many bits there are.
    pub(crate) fn len(&self) -> u32
        ensures { result ≡ length self.now }
    {
        self.count
    }

    /// Puts the bits of a number behind the others.
    pub(crate) fn push(&mut self, width: u32, number: u32)
        requires short { length self.old + width < 16 }
        requires fits { number < 2 ^ width }
        ensures bits { self.new ≡ self.old ++ bits width number }
        ensures len { length self.new ≡ length self.old + width }
    {
        self.number = (self.number << width) + number;
        self.count += width;
    }

    /// Takes the number of the first bits.
    pub(crate) fn pull(&mut self, width: u32) -> u32
        requires { width ≤ length self.old }
        ensures bits { self.old ≡ bits width result ++ self.new }
        ensures small { result < 2 ^ width }
        ensures len { length self.new + width ≡ length self.old }
    {
        self.count -= width;
        let number = self.number >> self.count;
        self.number -= number << self.count;
        number
    }

    /// Whether these are fewer than five bits, none of them set.
    pub(crate) fn is_filling(&self) -> bool
        ensures { result ≡ is_filling self.now }
    {
        self.count < 5 && self.number == 0
    }
}
