//! Laws of lines inside a batch.
ghost use Rattle.ild_script_batch.specs.Commits.{CarriedAgree, FlushesCommit};
ghost use Rattle.ild_script_batch.specs.Inside.{AnswersInside, CarriedOverBatch, LaterBeneath};
ghost use Rattle.ild_script_batch.specs.Stages.{BatchesBegin, BatchesEnd, StagesStay};

/// What a store beneath a batch says, where the batch says that it is later: it is the same, holds the same, and is later itself.
pub fn later_beneath()
    ensures { LaterBeneath }
{}

/// Where a store and a batch carry a value together, the batch carries it as a store that holds it outside any batch.
pub fn carried_over_batch()
    ensures { CarriedOverBatch }
{}

/// A read or an edit that a batch answers as a store does outside any batch is the line inside the batch: an edit tells no root, the store
/// beneath gets no block, and the batch has no more blocks of its own than puts are owed.
pub fn answers_inside()
    ensures { AnswersInside }
{}

/// Of a value that a store and a batch carry together, the batch has no other block under the id of one of its blocks.
pub fn carried_agree()
    ensures { CarriedAgree }
{}

/// A flush of a batch along the places of its value is the commit of the batch: the store holds the value then, or the batch stays open.
pub fn flushes_commit()
    ensures { FlushesCommit }
{}

/// A line that leaves the stage, inside a batch or outside, is replied to as it is due, or refused for a cause that is there.
pub fn stages_stay()
    ensures { StagesStay }
{}

/// A batch begins without blocks of its own, where the value and the one at its begin are the same.
pub fn batches_begin()
    ensures { BatchesBegin }
{}

/// Where a batch is dropped, the value is the one at its begin.
pub fn batches_end()
    ensures { BatchesEnd }
{}
