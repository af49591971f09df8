// A machine is opened from T, C and the first values of its plain cells and flags.
#![tactic(auto)]

ghost use Rattle.std.specs.Prelude.{◌≡◌, ◌<◌, ◌≤◌, length};
ghost use Rattle.rank.specs.Rank.{free_status};
ghost use Rattle.state.specs.State.{atomic};
ghost use Rattle.view.specs.View.{zero_view};
ghost use Rattle.opening.specs.Opening.{weights_stand, unmoved, refused_opening, fresh, opened_of};

use laws::{both, filled, item_or};
use state::{Atomic, Machine, Place, Shape, Thread};
use step::{Answer, MOST, Reason};

// The machine and how the opening is answered: `Ok`, or refused with a machine that is all zero and cannot stand. No Result: that such a
// machine does not stand is promised too (`RefusedFalls`).
#[derive(Clone, Copy)]
pub struct Opened {
    pub answer: Answer,
    pub machine: Machine,
}

fn weights_stand(s: &[u32]) -> bool
    ensures { result ≡ weights_stand s.now }
{
    s.iter().all(|w| *w <= MOST)
}

// The status of slot i at opening.
fn status_at(i: usize) -> Atomic
    requires { i < 16 }
    ensures { result ≡ atomic (free_status i) zero_view }
{
    let value = rank::free_status(i as u32) as u32;
    let view = view::zero_view();
    Atomic { value, view }
}

fn machine_of(
    shape: Shape,
    firsts: [u32; 16],
    flags: [Atomic; 8],
    statuses: [Atomic; 16],
) -> Machine
    ensures { result ≡ unmoved shape firsts flags statuses }
{
    let view = view::zero_view();
    let none = state::zero_atomic();
    let idle = Thread { place: Place::Idle };
    Machine {
        shape,
        steps: 0,
        held: 0,
        firsts,
        views: [view; 8],
        threads: [idle; 8],
        flags,
        head: none,
        tail: none,
        statuses,
    }
}

fn refused(reason: Reason) -> Opened
    ensures { result ≡ refused_opening reason }
{
    let none = state::zero_atomic();
    let shape = Shape {
        threads: 0,
        slots: 0,
        plain: 0,
        flags: 0,
    };
    let machine = machine_of(shape, [0u32; 16], [none; 8], [none; 16]);
    let number = reason.number();
    Opened {
        answer: Answer::Refused { number },
        machine,
    }
}

fn fresh_machine(threads: u32, slots: u32, plain: &[u32], flags: &[u32]) -> Machine
    requires { (slots ≤ 16) × (length plain.now ≤ 16) × (length flags.now ≤ 8) }
    ensures { result ≡ fresh threads slots plain.now flags.now }
{
    let n = plain.len();
    let f = flags.len();
    let shape = Shape {
        threads,
        slots,
        plain: n as u32,
        flags: f as u32,
    };
    let view = view::zero_view();
    let none = state::zero_atomic();
    let given_room = filled(|i| item_or(plain, i, 0), n, [0; 16]);
    let flags_room = filled(
        |i| Atomic {
            value: item_or(flags, i, 0),
            view,
        },
        f,
        [none; 8],
    );
    let statuses_room = filled(status_at, slots as usize, [none; 16]);
    machine_of(shape, given_room, flags_room, statuses_room)
}

// Opening: 5, then 10.
pub fn opening(threads: u32, slots: u32, plain: &[u32], flags: &[u32]) -> Opened
    ensures { result ≡ opened_of threads slots plain.now flags.now }
{
    let shaped = standing::in_shape(threads as usize, slots as usize, plain.len(), flags.len());
    if !shaped {
        return refused(Reason::OutOfRange);
    }
    let weighed = both(weights_stand(plain), weights_stand(flags));
    if !weighed {
        return refused(Reason::TooGreat);
    }
    let machine = fresh_machine(threads, slots, plain, flags);
    Opened {
        answer: Answer::Ok,
        machine,
    }
}
