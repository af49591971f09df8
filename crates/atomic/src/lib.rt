// The memory steps on atomic cells, written once over a cell's name. Threads count from 0. Machine and thread are two parameters, here and
// where steps are decided: a step changes the one and keeps the other.
#![tactic(auto)]

ghost use Rattle.std.specs.Prelude.{◌≡◌};
ghost use Rattle.atomic.specs.Atomic.{met, told, read_atomic, write_atomic, swapped_of};

use state::{Atomic, Machine, Name};
use view::View;

// The join of thread i's view and the cell's, over the machine's own cells: what the thread gets, and what the cell gets, each with its own
// room and so with its own view first.
fn meet(m: Machine, i: usize, name: Name) -> View
    ensures { result ≡ met m i name }
{
    let cell = state::atomic_of(m, name);
    let known = cell.view;
    view::join(state::row_of(m, i), known, state::cells_of(m))
}

fn tell(m: Machine, i: usize, name: Name) -> View
    ensures { result ≡ told m i name }
{
    let cell = state::atomic_of(m, name);
    let known = cell.view;
    view::join(known, state::row_of(m, i), state::cells_of(m))
}

// Atomic read: the thread's view becomes its join with the cell's.
pub fn read_atomic(m: Machine, i: usize, name: Name) -> Machine
    ensures { result ≡ read_atomic m i name }
{
    state::with_row(m, i, meet(m, i, name))
}

// Atomic write: thread and cell both get the join; the value is replaced.
pub fn write_atomic(m: Machine, i: usize, name: Name, value: u32) -> Machine
    ensures { result ≡ write_atomic m i name value }
{
    let view = tell(m, i, name);
    let cell = Atomic { value, view };
    state::with_atomic(state::with_row(m, i, meet(m, i, name)), name, cell)
}

#[derive(Clone, Copy)]
pub struct Swapped {
    pub won: bool,
    pub machine: Machine,
}

// Swap: if the value equals the old one given, an atomic write; otherwise an atomic read.
pub fn swap(m: Machine, i: usize, name: Name, old: u32, new: u32) -> Swapped
    ensures { result ≡ swapped_of m i name old new }
{
    let cell = state::atomic_of(m, name);
    if cell.value == old {
        let machine = write_atomic(m, i, name, new);
        return Swapped { won: true, machine };
    }
    let machine = read_atomic(m, i, name);
    Swapped {
        won: false,
        machine,
    }
}
