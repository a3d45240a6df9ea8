//! Roots with which heads are made.
ghost use Rattle.std.specs.Prelude.{◌≡◌};
ghost use Rattle.ild_run_work.specs.Roots.{refusal_of};

use crate::TypedRoots;
use ild_data::{BlockId, Sha256Keys};
use ild_edges::Store;
use ild_heads_script::Roots;
use ild_run_open::{Start, StartFault, open};
use ild_script::No;

/// The refusal of a line whose root is no start.
fn refusal_of(fault: StartFault) -> No
    ensures { result ≡ refusal_of fault }
{
    match fault {
        StartFault::Block { .. } => No::Block,
        StartFault::Mismatch => No::Mismatch,
        StartFault::Store => No::Store,
        StartFault::Clash(_) => No::Clash,
        StartFault::Memory => No::Memory,
    }
}

impl<'s, 'k, K: Store> Roots for TypedRoots<'s, 'k, K> {
    ghost use Rattle.ild_run_work.specs.Roots.{IsEmptyRoot, RefusesRoot};
    ghost use Rattle.ild_run_work.specs.Held.{rules_in, root_rules, moment_in};
    ghost use Rattle.ild_run_work.specs.Standing.{empty_on};

    ghost is_empty = { λ w root. IsEmptyRoot (rules_in w) (moment_in K.moment w) root };

    ghost cause = { λ before root refusal after. RefusesRoot (rules_in before) root (moment_in K.moment before) refusal (moment_in K.moment after) };

    fn empty(&mut self) -> Result<BlockId, No> {
        match open(
            self.alloc,
            self.acc,
            self.ty,
            Start::Empty,
            &Sha256Keys,
            self.store,
        ) {
            Ok(doc) => Ok(doc.root()),
            Err(fault) => Err(refusal_of(fault)),
        }
    }

    fn holds(&mut self, root: &BlockId) -> Result<(), No> {
        let _doc = match open(
            self.alloc,
            self.acc,
            self.ty,
            Start::Root(*root),
            &Sha256Keys,
            self.store,
        ) {
            Ok(doc) => doc,
            Err(fault) => return Err(refusal_of(fault)),
        };
        Ok(())
    }

    ghost empty_stays = { λ w x root later is. empty_on (root_rules w) (root_rules x) (moment_in K.moment w) (moment_in K.moment x) root later is };
}
