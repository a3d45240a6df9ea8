//! Laws of verdicts on schemas.
ghost use Rattle.ild_compile.specs.Compile.{OneVerdict};

/// The bytes of a schema have one table or one first fault.
#[tactic(auto, using(crate::proofs::OneVerdict::one_verdict_lem))]
pub fn one_verdict()
    ensures { OneVerdict }
{}
