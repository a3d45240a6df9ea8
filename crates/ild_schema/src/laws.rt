//! Laws of schemas, over all tables.
ghost use Rattle.ild_schema.specs.DataKinds.{KindsAreTold};
ghost use Rattle.ild_schema.specs.Legible.{AcceptedAreLegible};

/// The set of a type's kinds has those kinds that data of its values may have.
#[tactic(auto, using(crate::proofs::Kinding::kinds_told))]
pub fn kinds_are_told()
    ensures { KindsAreTold }
{}

/// A table for which no rule fails is legible.
pub fn accepted_are_legible()
    ensures { AcceptedAreLegible }
{}
