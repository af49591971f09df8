// The state as an image of numbers, judged and read.
#![tactic(auto)]

ghost use Rattle.std.specs.Prelude.{◌≡◌, ◌<◌, ◌≤◌};
ghost use Rattle.image.specs.Image.{place_words, place_of, view_from, atomic_from, place_from, machine_of, is_place, is_image};

use laws::{filled, item_or};
use state::{Atomic, Machine, Place, Shape, Thread};
use view::View;

// The stamps from a place on. The bound on places keeps their sums small; a type for a place of an image would say no more.
fn view_from(s: &[u32], p: usize) -> View
    requires { p ≤ 1160 }
    ensures { result ≡ view_from s.now p }
{
    View {
        at: filled(|i| item_or(s, p + i, 0), 32, [0; 32]),
    }
}

fn atomic_from(s: &[u32], p: usize) -> Atomic
    requires { p < 1160 }
    ensures { result ≡ atomic_from s.now p }
{
    let value = item_or(s, p, 0);
    let view = view_from(s, p + 1);
    Atomic { value, view }
}

// The place that a number says, with the rank and weight of which it notes its own. The numbers are the image's, which callers in C lend.
fn place_of(n: usize, rank: u32, weight: u32) -> Place
    ensures { result ≡ place_of n rank weight }
{
    let places = [
        Place::Idle,
        Place::PutStatus { rank, weight },
        Place::PutSwap { rank, weight },
        Place::PutWrite { rank, weight },
        Place::PutPublish { rank },
        Place::TakeStatus { rank },
        Place::TakeSwap { rank },
        Place::TakeRead { rank },
        Place::TakeFree { rank, weight },
    ];
    item_or(&places, n, Place::Idle)
}

fn place_from(s: &[u32], p: usize) -> Place
    requires { p < 1160 }
    ensures { result ≡ place_from s.now p }
{
    let n = item_or(s, p, 0);
    let rank = item_or(s, p + 1, 0);
    let weight = item_or(s, p + 2, 0);
    place_of(n as usize, rank, weight)
}

// A place in its three words, as callers in C read them.
pub fn place_words(p: Place) -> [u32; 3]
    ensures { result ≡ place_words p }
{
    match p {
        Place::Idle => [0, 0, 0],
        Place::PutStatus { rank, weight } => [1, rank, weight],
        Place::PutSwap { rank, weight } => [2, rank, weight],
        Place::PutWrite { rank, weight } => [3, rank, weight],
        Place::PutPublish { rank } => [4, rank, 0],
        Place::TakeStatus { rank } => [5, rank, 0],
        Place::TakeSwap { rank } => [6, rank, 0],
        Place::TakeRead { rank } => [7, rank, 0],
        Place::TakeFree { rank, weight } => [8, rank, weight],
    }
}

// The three words from p on are those of a place.
fn is_place(s: &[u32], p: usize) -> bool
    requires { p < 1160 }
    ensures { result ≡ is_place s.now p }
{
    let words = place_words(place_from(s, p));
    (0..3).all(|i| item_or(s, p + i, 0) == words[i])
}

// The numbers begin with an image: they are enough, and each thread's place is one.
pub fn is_image(s: &[u32]) -> bool
    ensures { result ≡ is_image s.now }
{
    if s.len() < 1160 {
        return false;
    }
    (0..8).all(|i| is_place(s, 22 + 35 * i))
}

// The machine that an image says, for any list of numbers.
pub fn machine_of(s: &[u32]) -> Machine
    ensures { result ≡ machine_of s.now }
{
    let threads = item_or(s, 0, 0);
    let slots = item_or(s, 1, 0);
    let plain = item_or(s, 2, 0);
    let flags = item_or(s, 3, 0);
    let shape = Shape {
        threads,
        slots,
        plain,
        flags,
    };
    let steps = item_or(s, 4, 0);
    let held = item_or(s, 5, 0);
    let view = view::zero_view();
    let none = state::zero_atomic();
    let idle = Thread { place: Place::Idle };
    let firsts = filled(|i| item_or(s, 6 + i, 0), 16, [0; 16]);
    let views = filled(|i| view_from(s, 25 + 35 * i), 8, [view; 8]);
    let threads = filled(
        |i| Thread {
            place: place_from(s, 22 + 35 * i),
        },
        8,
        [idle; 8],
    );
    let head = atomic_from(s, 302);
    let tail = atomic_from(s, 335);
    let flags = filled(|i| atomic_from(s, 368 + 33 * i), 8, [none; 8]);
    let statuses = filled(|i| atomic_from(s, 632 + 33 * i), 16, [none; 16]);
    Machine {
        shape,
        steps,
        held,
        firsts,
        views,
        threads,
        flags,
        head,
        tail,
        statuses,
    }
}
