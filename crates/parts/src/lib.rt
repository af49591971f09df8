// What the parts of a state must be so that it can stand: threads, first values, atomic cells.
#![tactic(auto)]

ghost use Rattle.std.specs.Prelude.{◌≡◌};
ghost use Rattle.parts.specs.Parts.{thread_stands, threads_stand, firsts_stand, atomic_stands, atomics_stand, parts_stand};

use laws::both;
use state::{Atomic, Machine, Name};
use step::MOST;

fn thread_stands(m: Machine, i: usize) -> bool
    ensures { result ≡ thread_stands m i }
{
    let placed = places::place_stands(state::place_of(m, i), m.steps);
    let seen = view::view_stands(state::row_of(m, i), state::cells_of(m));
    both(placed, seen)
}

fn threads_stand(m: Machine) -> bool
    ensures { result ≡ threads_stand m }
{
    let n = m.shape.threads as usize;
    (0..n).all(|i| thread_stands(m, i))
}

fn firsts_stand(m: Machine) -> bool
    ensures { result ≡ firsts_stand m }
{
    let n = m.shape.plain as usize;
    (0..n).all(|i| state::first_of(m, i) <= MOST)
}

fn atomic_stands(a: Atomic, k: usize, most: usize) -> bool
    ensures { result ≡ atomic_stands k most a }
{
    let seen = view::view_stands(a.view, k);
    both((a.value as usize) <= most, seen)
}

// The first n atomic cells that a function names.
fn atomics_stand<F: Fn(usize) -> Name>(m: Machine, name: F, n: usize, most: usize) -> bool
    requires { (f : F) (i : _) → F.pre f i }
    ensures { (g : _) → ((i : _) (a : Name) → F.post name i a → a ≡ g i) → result ≡ atomics_stand m g n most }
{
    let k = state::cells_of(m);
    (0..n).all(|i| atomic_stands(state::atomic_of(m, name(i)), k, most))
}

// Every noted rank and weight, first value, view and atomic cell is in range.
pub fn parts_stand(m: Machine) -> bool
    ensures { result ≡ parts_stand m }
{
    let shape = m.shape;
    let k = state::cells_of(m);
    let steps = m.steps as usize;
    let flags = atomics_stand(m, Name::Flag, shape.flags as usize, MOST as usize);
    let head = atomic_stands(m.head, k, steps);
    let tail = atomic_stands(m.tail, k, steps);
    let highest = 2 * (steps + (shape.slots as usize)) + 1;
    let statuses = atomics_stand(m, Name::Status, shape.slots as usize, highest);
    let cells = both(flags, both(head, both(tail, statuses)));
    both(threads_stand(m), both(firsts_stand(m), cells))
}
