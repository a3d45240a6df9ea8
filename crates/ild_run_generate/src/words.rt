//! The words of the generator.
ghost use Rattle.std.specs.Prelude.{◌≡◌};
ghost use Rattle.ild_run_generate.specs.Words.{generation_of, number_up_to, numbers_in};

use ild_view::index;

/// The number that a text is in decimal without leading zeros, if it is no more than this.
fn number_up_to(most: u64, text: &str) -> Option<u64>
    ensures { result ≡ number_up_to most text.now }
{
    match index(text) {
        Some(n) => { if n <= most { Some(n) } else { None } }
        None => None,
    }
}

/// How many steps, and the seed.
fn numbers_in(count: &str, seed: &str) -> Option<(u64, u64)>
    ensures { result ≡ numbers_in count.now seed.now }
{
    match number_up_to(20_000, count) {
        Some(count) => match number_up_to(u64::MAX, seed) {
            Some(seed) => Some((count, seed)),
            None => None,
        },
        None => None,
    }
}

/// How many steps `gen COUNT SEED` asks for, at most 20,000, and from which seed; or `None` where the words are others.
pub fn generation_of(words: &[String]) -> Option<(u64, u64)>
    ensures { result ≡ generation_of words.now }
{
    match words {
        [verb, count, seed] if verb.as_str() == "gen" => {
            numbers_in(count.as_str(), seed.as_str())
        }
        _ => None,
    }
}
