//! One line, answered.
ghost use Rattle.std.specs.Prelude.{◌≡◌, IfOk, IsTrue};
ghost use Rattle.ild_heads.specs.declared.events.Event.TheVariants as E;
ghost use Rattle.ild_heads.specs.Legal.{AreLegal};
ghost use Rattle.ild_heads.specs.Run.{IsAllowed};
ghost use Rattle.ild_heads.specs.Work.{Stays};
ghost use Rattle.ild_heads_script.specs.Said.{said_text};
ghost use Rattle.ild_heads_script.specs.Answer.{TakesEvent, HeadTurn, EmptyTurn, EventTurn, SomeTurn, LineTurn};

use crate::Roots;
use ild_data::{BlockId, Octets, Txt};
use ild_heads::{Event, Heads, Outcome};
use ild_heads_lines::{Asked, asked_of, told_text};
use ild_script::{LineErr, No, Reply, reply_text};
use std::alloc::{AllocError, Global};

/// What a line is answered: nothing, a refusal, or the outcome of the event that it gives, behind the number of a session.
#[derive(Drop)]
pub enum Said {
    Nothing,
    No(No),
    Told(Option<u32>, Outcome),
}

/// The text of what a line is answered. A refusal's takes no memory elsewhere: it is fixed.
pub fn said_text(alloc: Global, said: &Said) -> Result<Octets, AllocError>
    ensures { IfOk result (λ text. text ≡ said_text said.now) }
{
    match said {
        Said::Nothing => Ok(Octets::from_vec(Vec::new(alloc))),
        Said::No(no) => reply_text(alloc, &Reply::No(*no)),
        Said::Told(session, outcome) => told_text(alloc, *session, outcome),
    }
}

/// Takes an event.
fn take<R: Roots>(heads: &mut Heads, event: Event, work: &mut R) -> Said
    requires legal { IsTrue (R.told work.old) → AreLegal (R.stands work.old) (R.plain (R.rules work.old)) heads.old }
    requires allowed { IsTrue (R.told work.old) → IsAllowed (R.stands work.old) event }
    ensures said { TakesEvent (R.told work.new) (R.stands work.new) (R.plain (R.rules work.new)) R.ran work.old work.new heads.old event (said_text result) heads.new }
    ensures legal { IsTrue (R.told work.new) → AreLegal (R.stands work.new) (R.plain (R.rules work.new)) heads.new }
    ensures same { R.rules work.new ≡ R.rules work.old }
    ensures later { R.later work.old work.new }
    ensures stays { Stays (R.told work.old) (R.stands work.old) (R.told work.new) (R.stands work.new) }
{
    let session = event.session();
    match heads.step(event, work) {
        Ok(outcome) => Said::Told(session, outcome),
        Err(_) => Said::No(No::Memory),
    }
}

/// Makes a head with a root, where that stands for a value.
#[tactic(auto, using(crate::proofs::Heading::head_takes))]
fn make<R: Roots>(heads: &mut Heads, name: Txt, root: BlockId, work: &mut R) -> Said
    requires { IsTrue (R.told work.old) → AreLegal (R.stands work.old) (R.plain (R.rules work.old)) heads.old }
    ensures said { HeadTurn (R.told work.new) (R.stands work.new) (R.plain (R.rules work.new)) R.ran work.old work.new R.is_empty R.cause heads.old name root (said_text result) heads.new }
    ensures legal { IsTrue (R.told work.new) → AreLegal (R.stands work.new) (R.plain (R.rules work.new)) heads.new }
    ensures same { R.rules work.new ≡ R.rules work.old }
    ensures later { R.later work.old work.new }
    ensures stays { Stays (R.told work.old) (R.stands work.old) (R.told work.new) (R.stands work.new) }
{
    match work.holds(&root) {
        Ok(()) => take(heads, Event::Head(name, root), work),
        Err(no) => Said::No(no),
    }
}

/// Makes a head with the empty value.
fn make_empty<R: Roots>(heads: &mut Heads, name: Txt, work: &mut R) -> Said
    requires { IsTrue (R.told work.old) → AreLegal (R.stands work.old) (R.plain (R.rules work.old)) heads.old }
    ensures said { EmptyTurn (R.told work.new) (R.stands work.new) (R.plain (R.rules work.new)) R.ran work.old work.new R.is_empty R.cause heads.old name (said_text result) heads.new }
    ensures legal { IsTrue (R.told work.new) → AreLegal (R.stands work.new) (R.plain (R.rules work.new)) heads.new }
    ensures same { R.rules work.new ≡ R.rules work.old }
    ensures later { R.later work.old work.new }
    ensures stays { Stays (R.told work.old) (R.stands work.old) (R.told work.new) (R.stands work.new) }
{
    match work.empty() {
        Ok(root) => take(heads, Event::Head(name, root), work),
        Err(no) => Said::No(no),
    }
}

/// What an event that a line gives is answered.
fn event_said<R: Roots>(heads: &mut Heads, event: Event, work: &mut R) -> Said
    requires { IsTrue (R.told work.old) → AreLegal (R.stands work.old) (R.plain (R.rules work.old)) heads.old }
    ensures said { EventTurn (R.told work.new) (R.stands work.new) (R.plain (R.rules work.new)) R.ran work.old work.new R.is_empty R.cause heads.old event (said_text result) heads.new }
    ensures legal { IsTrue (R.told work.new) → AreLegal (R.stands work.new) (R.plain (R.rules work.new)) heads.new }
    ensures same { R.rules work.new ≡ R.rules work.old }
    ensures later { R.later work.old work.new }
    ensures stays { Stays (R.told work.old) (R.stands work.old) (R.told work.new) (R.stands work.new) }
{
    match event {
        Event::Head(name, root) => make(heads, name, root, work),
        Event::Begin(number, name) => take(heads, Event::Begin(number, name), work),
        Event::Line(number, line) => take(heads, Event::Line(number, line), work),
        Event::Commit(number) => take(heads, Event::Commit(number), work),
        Event::Replay(number) => take(heads, Event::Replay(number), work),
        Event::Abort(number) => take(heads, Event::Abort(number), work),
    }
}

/// Answers a line that isn't empty.
fn answer_some<R: Roots>(alloc: Global, heads: &mut Heads, line: &[u8], work: &mut R) -> Said
    requires { IsTrue (R.told work.old) → AreLegal (R.stands work.old) (R.plain (R.rules work.old)) heads.old }
    ensures said { SomeTurn (R.told work.new) (R.stands work.new) (R.plain (R.rules work.new)) R.ran work.old work.new R.is_empty R.cause heads.old line.now (said_text result) heads.new }
    ensures legal { IsTrue (R.told work.new) → AreLegal (R.stands work.new) (R.plain (R.rules work.new)) heads.new }
    ensures same { R.rules work.new ≡ R.rules work.old }
    ensures later { R.later work.old work.new }
    ensures stays { Stays (R.told work.old) (R.stands work.old) (R.told work.new) (R.stands work.new) }
{
    match asked_of(alloc, line) {
        Ok(None) => Said::Nothing,
        Ok(Some(Asked::Empty(name))) => make_empty(heads, name, work),
        Ok(Some(Asked::Event(event))) => event_said(heads, event, work),
        Err(LineErr::Line) => Said::No(No::Line),
        Err(LineErr::Memory) => Said::No(No::Memory),
    }
}

/// Answers a line over heads, by the event that it gives, if it gives one.
pub fn answer<R: Roots>(alloc: Global, heads: &mut Heads, line: &[u8], work: &mut R) -> Said
    requires { IsTrue (R.told work.old) → AreLegal (R.stands work.old) (R.plain (R.rules work.old)) heads.old }
    ensures said { LineTurn (R.told work.new) (R.stands work.new) (R.plain (R.rules work.new)) R.ran work.old work.new R.is_empty R.cause heads.old line.now (said_text result) heads.new }
    ensures legal { IsTrue (R.told work.new) → AreLegal (R.stands work.new) (R.plain (R.rules work.new)) heads.new }
    ensures same { R.rules work.new ≡ R.rules work.old }
    ensures later { R.later work.old work.new }
    ensures stays { Stays (R.told work.old) (R.stands work.old) (R.told work.new) (R.stands work.new) }
{
    if line.is_empty() {
        return Said::Nothing;
    }
    answer_some(alloc, heads, line, work)
}
