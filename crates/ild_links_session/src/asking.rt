//! What a line asks for along a path, and whether its reply may come of a link.
ghost use Rattle.std.specs.Prelude.{◌≡◌, ℕ, List};
ghost use Rattle.ild_links_session.specs.Looks.{looks_on, may_lead};
ghost use Rattle.ild_links_session.specs.inside.Asking.{tell_by, verb_by};
ghost use Rattle.ild_script_meaning.specs.Ask.{asked_by};

use ild_run_edit::Verb;
use ild_run_follow::Tell;
use ild_script::{No, Reply, Word};

/// What a word tells of a part.
pub(crate) fn tell_by(word: Word) -> Option<Tell>
    ensures { result ≡ tell_by word }
{
    match word {
        Word::Get => Some(Tell::Shown),
        Word::Rep => Some(Tell::Representation),
        Word::Has => Some(Tell::Presence),
        Word::Len => Some(Tell::Count),
        Word::Walk => Some(Tell::Parts),
        _ => None,
    }
}

/// How a word edits one.
pub(crate) fn verb_by(word: Word) -> Option<Verb>
    ensures { result ≡ verb_by word }
{
    match word {
        Word::Set => Some(Verb::Set),
        Word::Ins => Some(Verb::Ins),
        Word::Del => Some(Verb::Del),
        _ => None,
    }
}

// Whether a refusal may come of a path that leads no further in one tree.
fn may_lead(refusal: No) -> bool
    ensures { result ≡ may_lead refusal }
{
    match refusal {
        No::Line | No::Batch | No::Block | No::Store => false,
        No::Clash | No::Memory | No::Exhausted | No::Size => false,
        _ => true,
    }
}

/// Whether a reply of the first tree may come of a path that goes on behind a link.
pub(crate) fn looks_on(word: Word, reply: &Reply) -> bool
    ensures { (path : List (List ℕ)) (json : List ℕ) → result ≡ looks_on (asked_by word path json) reply.now }
{
    match reply {
        Reply::No(refusal) => {
            (tell_by(word).is_some() || verb_by(word).is_some()) && may_lead(*refusal)
        }
        Reply::Ok(text) => matches!(word, Word::Has) && text.as_str() == "false",
        Reply::Root(_) => false,
    }
}
