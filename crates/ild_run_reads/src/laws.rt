//! The law of reads.
ghost use Rattle.ild_run_reads.specs.Laws.{ReadsAreReplies};

/// Outside a batch, a read that is replied to so is what a line that asks for it gets in a session on typed values.
pub fn reads_are_replies()
    ensures { ReadsAreReplies }
{}
