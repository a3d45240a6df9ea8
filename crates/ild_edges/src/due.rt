//! Calls that fail by their number.
ghost use Rattle.std.specs.Prelude.{◌↔◌, IsTrue, Contains};

/// Whether the call of a number is one of those that fail.
pub(crate) fn is_due(fails: &[u64], number: u64) -> bool
    ensures { IsTrue result ↔ Contains fails.now number }
{
    fails.contains(&number)
}
