//! Heads and what they count (RFC 8949, section 3).
ghost use Rattle.std.specs.Prelude.{◌≡◌, option_map, IfSome, length, ◌≤◌};
ghost use Rattle.ild_cbor.specs.Reading.{Gives, split_at, cut_at, argument_at, least_of, number_at};

use crate::fault::{CborKind, Stop, stop_before, stop_short};

/// n bytes and those behind them, where they are there.
#[tactic(auto, unfolding(crate::specs::Reading::split_at))]
pub(crate) fn split(n: u64, bytes: &[u8]) -> Option<(&[u8], &[u8])>
    ensures within { IfSome result (λ x. length x.1.now ≤ length bytes.now) }
    ensures gives { option_map (λ x. (x.0.now, x.1.now)) result ≡ split_at n bytes.now }
{
    if (bytes.len() as u64) < n {
        return None;
    }
    Some(bytes.split_at(n as usize))
}

/// n bytes and those behind them.
#[tactic(auto, unfolding(crate::specs::Reading::cut_at))]
pub(crate) fn cut(n: u64, bytes: &[u8]) -> Result<(&[u8], &[u8]), Stop>
    ensures { Gives (λ x. (x.0.now, x.1.now)) result (cut_at n bytes.now) }
{
    match split(n, bytes) {
        Some(parts) => Ok(parts),
        None => Err(stop_short()),
    }
}

/// The argument behind a first byte with this low part, and the bytes behind it.
#[tactic(auto, unfolding(crate::specs::Reading::argument_at, crate::specs::Reading::split_at))]
pub(crate) fn argument(low: u8, bytes: &[u8]) -> Option<(u64, &[u8])>
    ensures within { IfSome result (λ x. length x.1.now ≤ length bytes.now) }
    ensures gives { option_map (λ x. (x.0, x.1.now)) result ≡ argument_at low bytes.now }
{
    match low {
        24 => {
            let (front, rest) = split(1, bytes)?;
            Some((front[0] as u64, rest))
        }
        25 => {
            let (front, rest) = split(2, bytes)?;
            let number = u16::from_be_bytes([front[0], front[1]]);
            Some((number as u64, rest))
        }
        26 => {
            let (front, rest) = split(4, bytes)?;
            let number = u32::from_be_bytes([front[0], front[1], front[2], front[3]]);
            Some((number as u64, rest))
        }
        27 => {
            let (front, rest) = split(8, bytes)?;
            let number = u64::from_be_bytes([
                front[0], front[1], front[2], front[3], front[4], front[5], front[6], front[7],
            ]);
            Some((number, rest))
        }
        _ => {
            if low < 24 {
                return Some((low as u64, bytes));
            }
            None
        }
    }
}

/// The least argument that has no shorter form.
fn least(low: u8) -> u64
    ensures { result ≡ least_of low }
{
    match low {
        24 => 24,
        25 => 0x100,
        26 => 0x1_0000,
        27 => 0x1_0000_0000,
        _ => 0,
    }
}

/// The argument of the item at `from`, in its shortest form, and the bytes behind it.
#[tactic(auto, unfolding(crate::specs::Reading::number_at))]
pub(crate) fn number<'b>(from: &'b [u8], low: u8, bytes: &'b [u8]) -> Result<(u64, &'b [u8]), Stop>
    ensures { Gives (λ x. (x.0, x.1.now)) result (number_at from.now low bytes.now) }
{
    if low > 27 {
        return Err(stop_before(CborKind::Head, from));
    }
    match argument(low, bytes) {
        None => Err(stop_short()),
        Some((number, rest)) => {
            if number < least(low) {
                return Err(stop_before(CborKind::Head, from));
            }
            Ok((number, rest))
        }
    }
}
