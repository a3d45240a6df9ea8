//! Laws of hops.
ghost use Rattle.ild_path_hops.specs.HopLaws.{HopsEnd, HopsGrow, HopsLeave, HopsPass, HopsStay};

/// Hops pass through HAMTs one in the value of another's entry, and leave the room that their path leaves. They are made from the
/// root inward by one more at the end, and taken up outward from the end; over a store that grows they stay what they are.
pub fn hops_lead()
    ensures grow { HopsGrow }
    ensures end { HopsEnd }
    ensures pass { HopsPass }
    ensures leave { HopsLeave }
    ensures stay { HopsStay }
{}
