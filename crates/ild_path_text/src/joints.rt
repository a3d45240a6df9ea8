//! Whether delimiters stand in a text at its joints alone.
ghost use Rattle.std.specs.Prelude.{◌≡◌, ◌<◌, List, ℕ, None, Some, cond, length};
ghost use Rattle.ild_schema.specs.Joins.{joined, pair_text};
ghost use Rattle.ild_typed.specs.Texts.{is_parted, join};

use ild_text::{join_parts, joins_are_one};
use ild_typed::joins_are_joins;
use memchr::memmem;

/// Whether a text that was made of so many parts, or of none, has the delimiter at their joints alone.
pub fn is_joined(text: &str, delim: &str, count: usize) -> bool
    requires { 0 < length delim.now }
    ensures { (parts : List (List ℕ)) → joined delim.now parts ≡ text.now → length parts ≡ count → join delim.now parts ≡ cond result (Some text.now) None }
{
    joins_are_joins();
    joins_are_one();
    if count == 0 {
        return true;
    }
    match join_parts(text, delim, count) {
        Ok(_) => true,
        Err(_) => false,
    }
}

/// Whether the text of a key and a value has the delimiter nowhere before the end of the key.
pub fn is_parted(text: &str, inner: &str, key: usize) -> bool
    requires { 0 < length inner.now }
    ensures { (pair : List ℕ × List ℕ) → pair_text inner.now pair ≡ text.now → length pair.0 ≡ key → result ≡ is_parted inner.now pair }
{
    match memmem::find(text.as_bytes(), inner.as_bytes()) {
        Some(at) => at == key,
        None => false,
    }
}
