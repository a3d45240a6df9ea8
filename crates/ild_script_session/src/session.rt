//! What answers the lines of a script.
ghost use Rattle.std.specs.Prelude.{◌≡◌, List, Option, Some, ℕ};
ghost use Rattle.ild_edges.specs.Store.{Moment};
ghost use Rattle.ild_script.specs.declared.reply.No.{No};
ghost use Rattle.ild_script.specs.declared.reply.Reply.{Reply as ReplySeen};
ghost use Rattle.ild_script.specs.declared.reply.Reply.TheVariants as R;
ghost use Rattle.ild_script_session.specs.Session.{State, Stage, Meaning};
ghost use Rattle.ild_script_session.specs.Stands.{IsAnswered, Leads};

use ild_edges::Store;
use ild_script::Reply;
use std::alloc::Global;

/// What answers the lines of a script, one after another. It stands at the stage to which they have come; where its value stands in a
/// store, by what that store holds too.
pub trait Session {
    /// The values, as contracts see them.
    ghost Value: { Type 0 };

    /// What it is about, as the type of its value.
    ghost Subject: { Type 0 };

    /// That stays.
    ghost subject: { Self → Subject };

    /// Over which stores, at a moment, it answers lines.
    ghost ready: { Self → Moment → Type 0 };

    /// Of which meaning of lines, and at which stage, it stands, over a store at a moment.
    ghost stands: { Self → Moment → Meaning Value → Stage Value → Type 0 };

    /// Of which meaning of lines, and at which state, it is, whatever a store holds.
    ghost is_at: { Self → Meaning Value → State Value → Type 0 };

    /// What a line leaves of each store, by its reply, from a session to the one that goes on: why it is refused, and what stays.
    ghost passes: { Self → Moment → List ℕ → Option ReplySeen → Moment → Self → Type 0 };

    /// Answers a line over a store, and goes on to the stage behind it. The empty line has no reply.
    fn answer<K: Store>(&mut self, alloc: Global, line: &[u8], store: &mut K) -> Option<Reply>
        requires { ready self.old (K.moment store.old) }
        ensures stays { ready self.new (K.moment store.new) }

        // Over each store, also one that does not tell what it holds.
        ensures answered { IsAnswered (K.moment store.old) line.now result (K.moment store.new) }
        ensures passed { passes self.old (K.moment store.old) line.now result (K.moment store.new) self.new }

        // From the stage at which it stands. What lines mean stays.
        ensures leads { (M : Meaning Value) (s : Stage Value) → stands self.old (K.moment store.old) M s
            → Leads M (stands self.new (K.moment store.new) M) (K.moment store.old) s line.now result (K.moment store.new) }

        // A line that is refused leaves the state, whatever a store holds; and where the session stands, it is at the stage's state.
        ensures kept { (refusal : No) → result ≡ Some (R.No refusal) → (M : Meaning Value) (s : State Value) → is_at self.old M s → is_at self.new M s }
        ensures stood { (M : Meaning Value) (s : Stage Value) → stands self.old (K.moment store.old) M s → is_at self.old M s.state }
        ensures same { subject self.new ≡ subject self.old };
}
