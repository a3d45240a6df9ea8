//! Unsigned varints (multiformats, unsigned-varint): groups of seven bits, the least significant first, nine bytes at most.
ghost use Rattle.std.specs.Prelude.{◌≡◌, ◌*◌, ◌<◌, ◌≤◌, ◌^◌, IfOk};
ghost use Rattle.ild_data.specs.CidRead.{Gives, read_more, read_varint};

use crate::CidFault;

/// The groups behind one that says that more follow, where `room` bytes may come.
#[tactic(auto, unfolding(crate::specs::CidRead::read_more))]
fn groups_behind(bytes: &[u8], room: u8) -> Result<(u64, &[u8]), CidFault>
    requires { room ≤ 8 }
    ensures gives { Gives (λ x. (x.0, x.1.now)) result (read_more room bytes.now) }
    ensures small { IfOk result (λ x. x.0 < 2 ^ (7 * room)) }
{
    if room == 0 {
        return Err(CidFault::Varint);
    }
    match bytes {
        [] => Err(CidFault::Short),
        [0, ..] => Err(CidFault::Varint),
        [last @ 1..=127, rest @ ..] => Ok((u64::from(*last), rest)),
        [group, rest @ ..] => {
            let (number, rest) = groups_behind(rest, room - 1)?;
            Ok((u64::from(*group - 128) + 128 * number, rest))
        }
    }
}

/// The number of the varint at the front, and the bytes after it.
#[tactic(auto, unfolding(crate::specs::CidRead::read_varint))]
pub(crate) fn read_varint(bytes: &[u8]) -> Result<(u64, &[u8]), CidFault>
    ensures gives { Gives (λ x. (x.0, x.1.now)) result (read_varint bytes.now) }
{
    match bytes {
        [] => Err(CidFault::Short),
        [last @ 0..=127, rest @ ..] => Ok((u64::from(*last), rest)),
        [group, rest @ ..] => {
            let (number, rest) = groups_behind(rest, 8)?;
            Ok((u64::from(*group - 128) + 128 * number, rest))
        }
    }
}
