//! Lines are run on roots.
use crate::TypedRoots;
use crate::running::run_line;
use ild_data::BlockId;
use ild_edges::Store;
use ild_heads::{Done, Work};
use ild_path_edits::schemas_have_tests;
use ild_script::reply_text;
use std::alloc::AllocError;

/// A root stands for the value of the type that stands under it in the store. A line is replied to as it is due on this value, or is refused for
/// a cause that is there.
impl<'s, 'k, K: Store> Work for TypedRoots<'s, 'k, K> {
    ghost use Rattle.std.specs.Prelude.{is_some};
    ghost use Rattle.ild_schema.specs.Value.{Value as TypedValue};
    ghost use Rattle.ild_run_work.specs.Rules.{RootRules, StandsIn};
    ghost use Rattle.ild_run_work.specs.Plain.{PlainStep};
    ghost use Rattle.ild_run_work.specs.Runs.{RunsThere, GoesOn};
    ghost use Rattle.ild_run_work.specs.Held.{rules_in, root_rules, moment_in};
    ghost use Rattle.ild_run_work.specs.Standing.{goes_on_same, goes_on_then, one_value};

    ghost Value = { TypedValue };

    ghost Rules = { RootRules };

    ghost rules = { λ w. root_rules w };

    ghost plain = { λ r v line reply u. PlainStep r.rules v line reply u };

    ghost told = { λ w. is_some (moment_in K.moment w).blocks };

    ghost stands = { λ w root v. StandsIn (rules_in w) (moment_in K.moment w) root v };

    ghost ran = { λ w root line reply to x. RunsThere (root_rules w) (root_rules x) line (moment_in K.moment w) root to reply (moment_in K.moment x) };

    ghost later = { λ w x. GoesOn (root_rules w) (root_rules x) (moment_in K.moment w) (moment_in K.moment x) };

    fn line(&mut self, root: &BlockId, line: &[u8]) -> Result<Done, AllocError> {
        // It does no work: its clause says that each schema has tests.
        schemas_have_tests();
        self.acc.recall();
        let (to, reply) = run_line(self.alloc, self.acc, self.ty, root, line, self.store);
        let text = reply_text(self.alloc, &reply)?;
        Ok(Done {
            root: to,
            reply: text,
        })
    }

    ghost one_value = { λ w root u v told p q. one_value (rules_in w) (moment_in K.moment w) w.schema root u v told p q };

    ghost later_same = { λ w. goes_on_same (root_rules w) (moment_in K.moment w) };

    ghost later_then = { λ u v w p q. goes_on_then (root_rules u) (root_rules v) (root_rules w) (moment_in K.moment u) (moment_in K.moment v) (moment_in K.moment w) p q };
}
