//! The integers of a block.
ghost use Rattle.std.specs.Prelude.{◌≡◌, ◌^◌, ◌-◌, ◌≤ℤ◌, ◌<ℤ◌, ◌↔◌, pos, negsuc, ℤ, IsSome, IfSome};

use std::marker::Model;

/// An integer from -2^63 to 2^64-1, the range of DAG-CBOR in 64 bits, as its head holds it: its sign, and the argument, which
/// is the number or -1 less the number (RFC 8949, section 3.1).
#[derive(Clone, Copy)]
pub struct Int {
    negative: bool,
    argument: u64,
}

impl Model for Int {
    ghost use Rattle.std.specs.Prelude.{ℤ};
    ghost use Rattle.ild_data.specs.Integer.{IsInt, int_of, is_negative, argument_of};

    ghost Value = { ℤ };

    ghost view = { λ a. int_of a.negative a.argument };

    ghost invariant = { λ a. IsInt (int_of a.negative a.argument) };

    ghost inverse = { λ n. record { negative = is_negative n; argument = argument_of n } };

    ghost use Rattle.ild_data.specs.IntegerSeen.{same_number};

    ghost inverse_ok = { λ a h. same_number a.negative a.argument };
}

impl Int {
    ghost use Rattle.ild_data.specs.Integer.{IsInt};

    /// The number as an integer of a block, or `None` outside the range.
    pub fn new(n: i128) -> Option<Int>
        ensures within { IsSome result ↔ IsInt n }
        ensures same { IfSome result (λ i. i ≡ n) }
    {
        if n < -0x8000_0000_0000_0000 || n > 0xffff_ffff_ffff_ffff {
            return None;
        }
        if n < 0 {
            Some(Int {
                negative: true,
                argument: (-1 - n) as u64,
            })
        } else {
            Some(Int {
                negative: false,
                argument: n as u64,
            })
        }
    }

    /// The number.
    pub fn get(&self) -> i128
        ensures same { result ≡ self.now }
        ensures within { IsInt self.now }
    {
        if self.negative {
            -1 - self.argument as i128
        } else {
            self.argument as i128
        }
    }
}
