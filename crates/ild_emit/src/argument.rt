//! How a head says its argument (RFC 8949, section 3).
ghost use Rattle.std.specs.Prelude.{◌≡◌, ◌≤◌};
ghost use Rattle.ild_emit.specs.Argument.{bytes_behind, lengths_passed, low_bits};

// How many of the four least arguments with longer heads it reaches. A sum, since no branch could be foretold.
#[inline(always)]
fn lengths_passed(n: u64) -> u8
    ensures { result ≡ lengths_passed n }
{
    (n >= 24) as u8 + (n >= 0x100) as u8 + (n >= 0x1_0000) as u8 + (n >= 0x1_0000_0000) as u8
}

/// How many bytes follow the first, and what the first says beside the major type.
#[inline(always)]
pub fn behind_and_low(n: u64) -> (usize, u8)
    ensures behind { result.0 ≡ bytes_behind n }
    ensures low { result.1 ≡ low_bits n }
    ensures few { result.0 ≤ 8 }
    ensures small { result.1 ≤ 27 }
{
    let passed = lengths_passed(n);
    let low = if n < 24 { n as u8 } else { 23 + passed };
    ((1 << passed) >> 1, low)
}
