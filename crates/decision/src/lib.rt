// What is decided of a step, on values, once the list of writes is searched.
#![tactic(auto)]

ghost use Rattle.std.specs.Prelude.{◌≡◌, true, ◌≤◌, ◌-◌};
ghost use Rattle.decision.specs.Bounds.{Sized};
ghost use Rattle.decision.specs.Decision.{rank_fits, stands_if, verdict_of, content_by};
ghost use Rattle.places.specs.Places.{rank_of};
ghost use Rattle.refusal.specs.Refusal.{refusal_by};
ghost use Rattle.rules.specs.Access.{accessed};
ghost use Rattle.rules.specs.Step.{taken_by, decided_by, content_if};
ghost use Rattle.state.specs.State.{place};

use asking::{Ask, Asked};
use calls::{act, has_status};
use laws::both;
use rules::{Decided, Done};
use state::{Machine, index};
use step::{Answer, Reason, Step};
use writes::{Access, Fill, Query};

mod calls; // calls.rt: the two calls, and what each verb does

// What is decided: the record to store, the answer and the machine.
#[derive(Clone, Copy)]
pub struct Verdict {
    pub fill: Fill,
    pub done: Done,
}

// What a plain access does to the machine: a write raises the thread's view there and is held.
fn make_access(m: Machine, i: usize, a: Access) -> Machine
    requires { m.held ≤ 1024 }
    ensures { result ≡ accessed m i a }
{
    match a {
        Access::NoAccess | Access::Reads { .. } => m,
        Access::Writes { cell, stamp, .. } => {
            let row = view::with_stamp(state::row_of(m, i), index(cell), stamp);
            let mut next = state::with_row(m, i, row);
            next.held = m.held + 1;
            next
        }
    }
}

// The step is taken: its plain access, what its verb does, and one step more.
fn take(m: Machine, step: Step, a: Access, f: Option<u32>) -> Done
    requires sized { Sized m }
    requires thread_bound { rank_of (place m (step.thread - 1)) ≤ 4096 }
    ensures { result ≡ taken_by m step a f }
{
    let i = index(step.thread);
    let verb = step.verb;
    let done = act(make_access(m, i, a), i, verb, f.unwrap_or(0));
    let answer = done.answer;
    let mut machine = done.machine;
    machine.steps = m.steps + 1;
    Done { answer, machine }
}

fn decide(m: Machine, stand: bool, lent: usize, step: Step, a: Access, f: Option<u32>) -> Decided
    requires { stand ≡ true → Sized m × (rank_fits m step ≡ true) }
    ensures { result ≡ decided_by (refusal_by stand m lent step a f) m step a f }
{
    if let Some(reason) = refusal::refusal_by(m, stand, lent, step, a, f) {
        let number = reason.number();
        let done = Done {
            answer: Answer::Refused { number },
            machine: m,
        };
        return Decided {
            done,
            wrote: Access::NoAccess,
        };
    }
    let done = take(m, step, a, f);
    Decided { done, wrote: a }
}

// The rank that the thread's place notes is one that the step can reckon with.
fn rank_fits(m: Machine, step: Step) -> bool
    ensures { result ≡ rank_fits m step }
{
    let shape = m.shape;
    if shape.threads < step.thread {
        return true;
    }
    places::rank_of(state::place_of(m, index(step.thread))) <= 4096
}

// Whether the state and the list stand; of those known to stand only what the step reckons with is judged.
fn stands_if(m: Machine, lent: usize, asked: Asked, q: Query) -> bool
    ensures { result ≡ stands_if asked.known m lent asked.step q }
{
    if asked.known {
        let step = asked.step;
        return both(standing::sizes_stand(m, lent), rank_fits(m, step));
    }
    standing::stands_by(m, lent, q)
}

// What is decided of a step, once the search that was asked for has found q.
pub fn verdict_of(m: Machine, lent: usize, asked: Asked, ask: Ask, q: Query) -> Verdict
    ensures { result ≡ verdict_of asked.known m lent asked.step ask.access q }
{
    let a = ask.access;
    let step = asked.step;
    let looked = q.looked;
    let found = looked.found;
    let decided = decide(m, stands_if(m, lent, asked, q), lent, step, a, found);
    let wrote = decided.wrote;
    let fill = writes::fill_of(wrote, state::held_of(m), lent);
    let done = decided.done;
    Verdict { fill, done }
}

fn content_if(stand: bool, published: bool, weight: u32) -> Answer
    ensures { result ≡ content_if stand published weight }
{
    if !stand {
        let number = Reason::CannotStand.number();
        return Answer::Refused { number };
    }
    if published {
        return Answer::Value { value: weight };
    }
    Answer::Dash
}

// What the queue holds at a rank, once the search has found q.
pub fn content_by(m: Machine, lent: usize, rank: u32, q: Query) -> Answer
    ensures { result ≡ content_by m lent rank q }
{
    let looked = q.looked;
    let newest = looked.newest;
    content_if(
        standing::stands_by(m, lent, q),
        has_status(m, rank, rank::full_status(rank)),
        newest.value,
    )
}
