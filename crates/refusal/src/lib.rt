// The refusals of a step, in their order.
#![tactic(auto)]

ghost use Rattle.std.specs.Prelude.{◌≡◌};
ghost use Rattle.refusal.specs.Refusal.{same_kind, refusal_by};

use state::{Machine, index};
use step::{LineKind, MOST, Reason, Step};
use writes::Access;

fn same_kind(j: LineKind, k: LineKind) -> bool
    ensures { result ≡ same_kind j k }
{
    j == k
}

// Stepping: 14, 6, 7, 8, 9, 10, 11, 12, 13; none where the step is taken. What is judged are six parameters, here and in `decision`: the
// definitions have them one by one.
#[tactic(auto, unfolding(crate::specs::Refusal::refusal_by))]
pub fn refusal_by(
    m: Machine,
    stand: bool,
    lent: usize,
    step: Step,
    a: Access,
    f: Option<u32>,
) -> Option<Reason>
    ensures { result ≡ refusal_by stand m lent step a f }
{
    let shape = m.shape;
    let verb = step.verb;
    let i = index(step.thread);
    let due = same_kind(verbs::kind_of(verb), places::due_at(state::place_of(m, i)));
    if !stand {
        return Some(Reason::CannotStand);
    }
    if 4096 <= m.steps {
        return Some(Reason::StepsTaken);
    }
    if !verbs::is_among(step.thread, shape.threads) {
        return Some(Reason::NoSuchThread);
    }
    if !due {
        return Some(Reason::NotDue);
    }
    if !verbs::is_named(shape, verb) {
        return Some(Reason::NoSuchCell);
    }
    if MOST < verbs::greatest_of(verb) {
        return Some(Reason::TooGreat);
    }
    if accesses::is_full(a, m.held, lent) {
        return Some(Reason::NoRecordFree);
    }
    if accesses::is_outdated(a, state::row_of(m, i)) {
        return Some(Reason::Outdated);
    }
    if accesses::is_amiss(a, f) {
        return Some(Reason::Amiss);
    }
    None
}
