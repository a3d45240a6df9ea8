//! A quick test that the items of a list are pairs whose keys stand once. It may fail where they are.
ghost use Rattle.std.specs.Prelude.{◌≡◌, ◌<◌, IfOk, IfSome, None, nat_eq, true};
ghost use Rattle.std.specs.List.{IsDistinct};
ghost use Rattle.ild_cbor.specs.Steps.{HasItems};
ghost use Rattle.ild_data.specs.Data.{Items as Parts, items_list};
ghost use Rattle.ild_layer_pairs.specs.Apart.{AreDigested, IsNamed, climbs, digest_of, follows};
ghost use Rattle.ild_layer_pairs.specs.Judged.{IsJudged};

use ild_cbor::{Items, Node};
use std::alloc::{AllocError, Global};

/// A prime: digests differ for nearly all texts that do.
const FACTOR: u64 = 0x0000_0100_0000_01b3;

/// The name and the value of the first item, where it is a pair, and the items behind it.
pub fn first_pair<'b>(items: &Items<'b>) -> Option<(&'b str, Node<'b>, Items<'b>)>
    ensures pair { IfSome result (λ x. (ds : Parts) → HasItems items.now ds → IsNamed ds x.0.now x.1 x.2) }
    ensures fewer { IfSome result (λ x. x.2.left < items.now.left) }
{
    let mut left = *items;
    if left.unfold()? != 2 {
        return None;
    }
    let first = left.next()?;
    let name = first.text()?;
    let value = left.next()?;
    Some((name, value, left))
}

// A number that equal texts share.
fn digest(text: &str) -> u64
    ensures { result ≡ digest_of text.now }
{
    let mut digest: u64 = 0;
    let mut left = text.as_bytes();
    while let Some((byte, behind)) = left.split_first() {
        digest = digest.wrapping_mul(FACTOR).wrapping_add(*byte as u64);
        left = behind;
    }
    digest
}

// The digests of the names, where all items are pairs.
fn digests(alloc: Global, items: Items<'_>) -> Result<Option<Vec<u64>>, AllocError>
    ensures { IfOk result (λ o. IfSome o (λ v. (ds : Parts) → HasItems items.entry ds → AreDigested (items_list ds) v.items)) }
{
    let mut found = Vec::new(alloc);
    let mut left = items;
    while let Some((name, _, behind)) = first_pair(&left) {
        found.push(digest(name))?;
        left = behind;
    }
    match left.next() {
        Some(_) => Ok(None),
        None => Ok(Some(found)),
    }
}

// Whether a number is greater than the one before it.
fn follows(before: Option<u64>, number: u64) -> bool
    ensures { result ≡ follows before number }
{
    match before {
        Some(least) => least < number,
        None => true,
    }
}

// Whether each number but the first is greater than the one before it.
fn climb(numbers: &[u64]) -> bool
    ensures { result ≡ climbs None numbers.now }
{
    let mut before = None;
    let mut left = numbers;
    while let Some((number, behind)) = left.split_first() {
        if !follows(before, *number) {
            return false;
        }
        before = Some(*number);
        left = behind;
    }
    true
}

// Whether numbers are apart. They may change places.
fn are_apart(numbers: &mut Vec<u64>) -> bool
    ensures { result ≡ true → IsDistinct nat_eq numbers.old.items }
{
    numbers.sort_unstable();
    climb(numbers.as_slice())
}

/// Whether all items are pairs and digests tell their keys apart.
pub(crate) fn plainly_apart(alloc: Global, items: Items<'_>) -> Result<bool, AllocError>
    ensures { IfOk result (λ b. b ≡ true → (ds : Parts) → HasItems items.entry ds → IsJudged (items_list ds) None) }
{
    match digests(alloc, items)? {
        Some(numbers) => {
            let mut numbers = numbers;
            Ok(are_apart(&mut numbers))
        }
        None => Ok(false),
    }
}
