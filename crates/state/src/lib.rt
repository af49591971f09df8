// The machine's state by value, and the accessors of its places: total in every index; none else has one.
#![tactic(auto)]

ghost use Rattle.std.specs.Prelude.{◌≡◌, ◌-◌, get_or};
ghost use Rattle.state.specs.State.{zero_atomic, row, with_row, place, with_place, atomic_at, with_atomic, first_of, cells_of};

use laws::with_item;
use view::{View, zero_view};

// An atomic cell holds one value and one view.
#[derive(Clone, Copy)]
pub struct Atomic {
    pub value: u32,
    pub view: View,
}

// The name of an atomic cell; flags and slots count from 0 here.
#[derive(Clone, Copy)]
pub enum Name {
    Head,
    Tail,
    Flag(usize),
    Status(usize),
}

// Whether a thread is idle or which step of which call it makes next, with the rank and weight that this place needs.
#[derive(Clone, Copy)]
pub enum Place {
    Idle,
    PutStatus { rank: u32, weight: u32 },
    PutSwap { rank: u32, weight: u32 },
    PutWrite { rank: u32, weight: u32 },
    PutPublish { rank: u32 },
    TakeStatus { rank: u32 },
    TakeSwap { rank: u32 },
    TakeRead { rank: u32 },
    TakeFree { rank: u32, weight: u32 },
}

#[derive(Clone, Copy)]
pub struct Thread {
    pub place: Place,
}

// What this machine has of each: T, C, N and the number of flags.
#[derive(Clone, Copy)]
pub struct Shape {
    pub threads: u32,
    pub slots: u32,
    pub plain: u32,
    pub flags: u32,
}

// One view per thread as a table, thread by cell: `views`. Room that this machine lacks is zero or idle at opening.
#[derive(Clone, Copy)]
pub struct Machine {
    pub shape: Shape,
    pub steps: u32,
    pub held: u32,
    pub firsts: [u32; 16],
    pub views: [View; 8],
    pub threads: [Thread; 8],
    pub flags: [Atomic; 8],
    pub head: Atomic,
    pub tail: Atomic,
    pub statuses: [Atomic; 16],
}

pub fn zero_atomic() -> Atomic
    ensures { result ≡ zero_atomic }
{
    let view = zero_view();
    Atomic { value: 0, view }
}

// How many plain cells and slots there are: the length of a view.
pub fn cells_of(m: Machine) -> usize
    ensures { result ≡ cells_of m }
{
    let shape = m.shape;
    (shape.plain as usize) + (shape.slots as usize)
}

pub fn held_of(m: Machine) -> usize
    ensures { result ≡ m.held }
{
    m.held as usize
}

// The view of thread i (from 0), and zero past the last.
pub fn row_of(m: Machine, i: usize) -> View
    ensures { result ≡ row m i }
{
    let views = m.views;
    item_in(views, i, zero_view())
}

// An index goes into an array of its own and never into the whole machine: the compiler then copies that array alone.
fn item_in<T: Copy, const N: usize>(s: [T; N], i: usize, none: T) -> T
    ensures { result ≡ get_or s i none }
{
    if i < N { s[i] } else { none }
}

// One row replaced, all others kept. Each array of the machine has a function of its own for that: a field is no parameter.
pub fn with_row(m: Machine, i: usize, v: View) -> Machine
    ensures { result ≡ with_row m i v }
{
    let views = m.views;
    let changed = with_item(views, i, v);
    let mut next = m;
    next.views = changed;
    next
}

// Where thread i stands, and idle past the last.
pub fn place_of(m: Machine, i: usize) -> Place
    ensures { result ≡ place m i }
{
    let threads = m.threads;
    let idle = Thread { place: Place::Idle };
    let thread = item_in(threads, i, idle);
    thread.place
}

pub fn with_place(m: Machine, i: usize, p: Place) -> Machine
    ensures { result ≡ with_place m i p }
{
    let threads = m.threads;
    let changed = with_item(threads, i, Thread { place: p });
    let mut next = m;
    next.threads = changed;
    next
}

pub fn atomic_of(m: Machine, name: Name) -> Atomic
    ensures { result ≡ atomic_at m name }
{
    match name {
        Name::Head => m.head,
        Name::Tail => m.tail,
        Name::Flag(f) => {
            let flags = m.flags;
            item_in(flags, f, zero_atomic())
        }
        Name::Status(s) => {
            let statuses = m.statuses;
            item_in(statuses, s, zero_atomic())
        }
    }
}

pub fn with_atomic(m: Machine, name: Name, a: Atomic) -> Machine
    ensures { result ≡ with_atomic m name a }
{
    let mut next = m;
    match name {
        Name::Head => {
            next.head = a;
            next
        }
        Name::Tail => {
            next.tail = a;
            next
        }
        Name::Flag(f) => {
            let flags = m.flags;
            let changed = with_item(flags, f, a);
            next.flags = changed;
            next
        }
        Name::Status(s) => {
            let statuses = m.statuses;
            let changed = with_item(statuses, s, a);
            next.statuses = changed;
            next
        }
    }
}

// The value of the first write at entry i of a view: the given one of a plain cell, zero of a slot.
pub fn first_of(m: Machine, i: usize) -> u32
    ensures { result ≡ first_of m i }
{
    if i < (m.shape.plain as usize) {
        let firsts = m.firsts;
        item_in(firsts, i, 0)
    } else {
        0
    }
}

// Threads, cells and flags count from 1: the place in a list is one less.
pub fn index(n: u32) -> usize
    ensures { result ≡ n - 1 }
{
    n.saturating_sub(1) as usize
}
