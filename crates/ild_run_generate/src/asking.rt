//! What a number asks for.
ghost use Rattle.std.specs.Prelude.{◌≡◌, ◌∷◌, [], IfSome, Some, pos};
ghost use Rattle.ild_data.specs.Data.{integer};
ghost use Rattle.ild_generator.specs.Numbers.{key_of};
ghost use Rattle.ild_script_meaning.specs.Lines.{read_json};
ghost use Rattle.ild_run_generate.specs.Steps.{IsAsked};

use ild_data::{Int, Path, Tree, Txt};
use ild_generator::{is_deletion, key_of};
use ild_json::print;
use ild_run_edit::Verb;
use std::alloc::Global;

/// An edit: what it does, at which path, and with which json text.
#[derive(Drop)]
pub(crate) struct Asked {
    pub(crate) verb: Verb,
    pub(crate) path: Path,
    pub(crate) json: Txt,
}

/// The path of one key.
fn path_to(alloc: Global, x: u64) -> Option<Path>
    ensures { IfSome result (λ path. path ≡ key_of x ∷ []) }
{
    let Ok(key) = key_of(alloc, x) else {
        return None;
    };
    let mut path = Path::new(alloc);
    match path.push(key) {
        Ok(()) => Some(path),
        Err(_) => None,
    }
}

/// A number of 64 bits as an integer of a block.
fn integer(i: u64) -> Int
    ensures { result ≡ pos i }
{
    match Int::new(i as i128) {
        Some(n) => n,
        None => unreachable!(),
    }
}

/// The json text of a number.
fn json_of(alloc: Global, i: u64) -> Option<Txt>
    ensures { IfSome result (λ json. read_json json ≡ Some (integer (pos i))) }
{
    match print(alloc, &Tree::Int(integer(i))) {
        Ok(text) => Some(text),
        Err(_) => None,
    }
}

/// The edit that a number asks for in a step, or none where memory is wanting.
pub(crate) fn edit_for(alloc: Global, x: u64, i: u64) -> Option<Asked>
    ensures { IfSome result (IsAsked x i) }
{
    let path = path_to(alloc, x)?;
    if is_deletion(x) {
        return Some(Asked {
            verb: Verb::Del,
            path,
            json: Txt::from_string(String::new(alloc)),
        });
    }
    let json = json_of(alloc, i)?;
    Some(Asked {
        verb: Verb::Set,
        path,
        json,
    })
}
