//! What has a mark.
ghost use Rattle.std.specs.Prelude.{◌≡◌};
ghost use Rattle.ild_bulk.specs.Keyed.{mark_behind, mark_in};
ghost use Rattle.ild_bulk.specs.declared.entries.Mark.{Mark};

use crate::entries::{BorrowedMark, KeyedMark, Mark};

/// What has the mark of an entry.
pub trait Marked {
    /// The mark.
    ghost mark_seen: { Self → Mark };

    /// The mark.
    fn mark(&self) -> &Mark
        ensures { result.now ≡ mark_seen self.now };
}

impl Marked for Mark {
    ghost mark_seen = { λ mark. mark };

    #[inline(always)]
    fn mark(&self) -> &Mark {
        self
    }
}

impl Marked for KeyedMark<'_> {
    ghost mark_seen = { mark_in };

    #[inline(always)]
    fn mark(&self) -> &Mark {
        &self.mark
    }
}

impl Marked for BorrowedMark<'_> {
    ghost mark_seen = { mark_behind };

    #[inline(always)]
    fn mark(&self) -> &Mark {
        self.mark
    }
}
