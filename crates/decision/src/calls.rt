// The two calls, and what each verb does.
ghost use Rattle.std.specs.Prelude.{◌≡◌, ◌≤◌, eqb};
ghost use Rattle.places.specs.Places.{rank_of};
ghost use Rattle.rules.specs.Calls.{ends, goes_on, status_name, looks, swaps, closes, resumed, yes_if, acted};
ghost use Rattle.state.specs.State.{place, atomic_at};

use rules::Done;
use state::{Machine, Name, Place, index};
use step::{Answer, Verb};

// Thread i goes to a place and is answered.
fn end(m: Machine, i: usize, p: Place, answer: Answer) -> Done
    ensures { result ≡ ends m i p answer }
{
    let machine = state::with_place(m, i, p);
    Done { answer, machine }
}

// The call goes on to a place, or it ends with an answer.
fn go_on(on: bool, m: Machine, i: usize, p: Place, lost: Answer) -> Done
    ensures { result ≡ goes_on on m i p lost }
{
    if on {
        return end(m, i, p, Answer::Dash);
    }
    end(m, i, Place::Idle, lost)
}

// The name of the status of a rank's slot.
fn status_name(m: Machine, rank: u32) -> Name
    ensures { result ≡ status_name m rank }
{
    let shape = m.shape;
    Name::Status(rank::slot_of(rank, shape.slots) as usize)
}

pub(crate) fn has_status(m: Machine, rank: u32, status: usize) -> bool
    ensures { result ≡ eqb (atomic_at m (status_name m rank)).value status }
{
    let cell = state::atomic_of(m, status_name(m, rank));
    (cell.value as usize) == status
}

// Second: the status is read; not the one due: the call ends.
fn look(m: Machine, i: usize, rank: u32, due: usize, p: Place, lost: Answer) -> Done
    ensures { result ≡ looks m i rank due p lost }
{
    let next = atomic::read_atomic(m, i, status_name(m, rank));
    go_on(has_status(m, rank, due), next, i, p, lost)
}

// Third: head or tail is swapped from the rank to the next; lost: the call ends.
fn swap(m: Machine, i: usize, name: Name, rank: u32, p: Place, lost: Answer) -> Done
    requires { rank ≤ 4096 }
    ensures { result ≡ swaps m i name rank p lost }
{
    let s = atomic::swap(m, i, name, rank, rank::next_rank(rank) as u32);
    go_on(s.won, s.machine, i, p, lost)
}

// Fifth: the status is written; the call ends.
fn close(m: Machine, i: usize, rank: u32, status: usize, answer: Answer) -> Done
    requires { status ≤ 100000 }
    ensures { result ≡ closes m i rank status answer }
{
    let next = atomic::write_atomic(m, i, status_name(m, rank), status as u32);
    end(next, i, Place::Idle, answer)
}

// A go, by the place of the thread; a plain read has found `value`. The bounds are clauses, here and where this is called: a type that
// has them would be made at each step and taken apart again.
fn resume(m: Machine, i: usize, p: Place, value: u32) -> Done
    requires p_bound { rank_of p ≤ 4096 }
    requires slots_bound { m.shape.slots ≤ 16 }
    ensures { result ≡ resumed m i p value }
{
    let shape = m.shape;
    match p {
        Place::Idle => end(m, i, Place::Idle, Answer::Dash),
        Place::PutStatus { rank, weight } => look(
            m,
            i,
            rank,
            rank::free_status(rank),
            Place::PutSwap { rank, weight },
            Answer::No,
        ),
        Place::PutSwap { rank, weight } => swap(
            m,
            i,
            Name::Head,
            rank,
            Place::PutWrite { rank, weight },
            Answer::No,
        ),
        Place::PutWrite { rank, .. } => end(m, i, Place::PutPublish { rank }, Answer::Dash),
        Place::PutPublish { rank } => close(m, i, rank, rank::full_status(rank), Answer::Yes),
        Place::TakeStatus { rank } => look(
            m,
            i,
            rank,
            rank::full_status(rank),
            Place::TakeSwap { rank },
            Answer::None,
        ),
        Place::TakeSwap { rank } => swap(
            m,
            i,
            Name::Tail,
            rank,
            Place::TakeRead { rank },
            Answer::None,
        ),
        Place::TakeRead { rank } => end(
            m,
            i,
            Place::TakeFree {
                rank,
                weight: value,
            },
            Answer::Dash,
        ),
        Place::TakeFree { rank, weight } => close(
            m,
            i,
            rank,
            rank::freed_status(rank, shape.slots),
            Answer::Got { weight },
        ),
    }
}

fn yes_if(won: bool) -> Answer
    ensures { result ≡ yes_if won }
{
    if won { Answer::Yes } else { Answer::No }
}

// What a verb does, its plain access apart; a plain read has found `value`.
pub(crate) fn act(m: Machine, i: usize, verb: Verb, value: u32) -> Done
    requires i_bound { rank_of (place m i) ≤ 4096 }
    requires slots_bound { m.shape.slots ≤ 16 }
    ensures { result ≡ acted m i verb value }
{
    match verb {
        Verb::Get { .. } => end(m, i, Place::Idle, Answer::Value { value }),
        Verb::Set { .. } => end(m, i, Place::Idle, Answer::Ok),
        Verb::Load { flag } => {
            let name = Name::Flag(index(flag));
            let cell = state::atomic_of(m, name);
            let value = cell.value;
            end(
                atomic::read_atomic(m, i, name),
                i,
                Place::Idle,
                Answer::Value { value },
            )
        }
        Verb::Store { flag, value } => {
            let name = Name::Flag(index(flag));
            end(
                atomic::write_atomic(m, i, name, value),
                i,
                Place::Idle,
                Answer::Ok,
            )
        }
        Verb::Swap { flag, old, new } => {
            let s = atomic::swap(m, i, Name::Flag(index(flag)), old, new);
            end(s.machine, i, Place::Idle, yes_if(s.won))
        }
        Verb::Put { value } => {
            let head = m.head;
            let rank = head.value;
            let put = Place::PutStatus {
                rank,
                weight: value,
            };
            end(atomic::read_atomic(m, i, Name::Head), i, put, Answer::Dash)
        }
        Verb::Take => {
            let tail = m.tail;
            let rank = tail.value;
            let take = Place::TakeStatus { rank };
            end(atomic::read_atomic(m, i, Name::Tail), i, take, Answer::Dash)
        }
        Verb::Go | Verb::GoAt { .. } => resume(m, i, state::place_of(m, i), value),
    }
}
