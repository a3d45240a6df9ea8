//! The member of a union that stands behind its prefix.
ghost use Rattle.std.specs.Prelude.{◌≤◌, length, option_map};
ghost use Rattle.ild_schema.specs.Marks.{mark_text};
ghost use Rattle.ild_text.specs.Prefix.{bytes_mark, IsFirstPrefixed};

use crate::mark::{behind_bytes, behind_text};
use ild_schema::UnionDef;

/// The first member with whose text the text begins, and what stands behind it.
pub fn prefix<'b>(text: &'b str, def: &UnionDef) -> Option<(u32, &'b str)>
    requires { length def.now.members ≤ 1024 }
    ensures { IsFirstPrefixed mark_text def.now.members text.now (option_map (λ r. (r.0, r.1.now)) result) }
{
    let members = def.members.as_slice();
    for n in 0..members.len() {
        if let Some(rest) = behind_text(text, &members[n].mark) {
            return Some((n as u32, rest));
        }
    }
    None
}

/// The first member with whose bytes the bytes begin, and what stands behind them. The text of a member is the bytes in
/// hexadecimal digits of either case.
pub fn bytes_prefix<'b>(bytes: &'b [u8], def: &UnionDef) -> Option<(u32, &'b [u8])>
    requires { length def.now.members ≤ 1024 }
    ensures { IsFirstPrefixed bytes_mark def.now.members bytes.now (option_map (λ r. (r.0, r.1.now)) result) }
{
    let members = def.members.as_slice();
    for n in 0..members.len() {
        if let Some(rest) = behind_bytes(bytes, &members[n].mark) {
            return Some((n as u32, rest));
        }
    }
    None
}
