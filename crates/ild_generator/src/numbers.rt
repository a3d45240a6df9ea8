//! The numbers that are drawn, and what each asks for.
ghost use Rattle.std.specs.Prelude.{◌≡◌, IfOk};
ghost use Rattle.ild_generator.specs.Numbers.{is_deletion, key_of, next};

use ild_data::Txt;
use std::alloc::{AllocError, Global};

/// The next number: the last one by 6364136223846793005 and more by 1442695040888963407, modulo 2^64.
#[tactic(auto, unfolding(crate::specs::Numbers::next))]
pub fn next(x: u64) -> u64
    ensures { result ≡ next x }
{
    x.wrapping_mul(6_364_136_223_846_793_005)
        .wrapping_add(1_442_695_040_888_963_407)
}

/// Whether a number asks that its key be deleted, as one in four does.
#[tactic(auto, unfolding(crate::specs::Numbers::is_deletion))]
pub fn is_deletion(x: u64) -> bool
    ensures { result ≡ is_deletion x }
{
    x / 0x1_0000_0000 % 4 == 0
}

/// The key of a number: `k`, and a number below 65,536.
#[tactic(auto, unfolding(crate::specs::Numbers::key_of))]
pub fn key_of(alloc: Global, x: u64) -> Result<Txt, AllocError>
    ensures { IfOk result (λ key. key ≡ key_of x) }
{
    let number = x / 0x100_0000_0000 % 65536;
    let mut key = String::from_str(alloc, "k")?;
    key.push_str(number.to_string(alloc)?.as_str())?;
    Ok(Txt::from_string(key))
}
