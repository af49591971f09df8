// Views: one stamp for each plain cell and each item slot.
#![tactic(auto)]

ghost use Rattle.std.specs.Prelude.{◌≡◌};
ghost use Rattle.view.specs.View.{zero_view, stamp_of, with_stamp, joined, view_stands};

use laws::{item_or, with_item};
use step::MOST;

// The entry of the cell that a record numbers c is at c - 1: plain cells first, then slots. Entries past the machine's own are room.
#[derive(Clone, Copy)]
pub struct View {
    pub at: [u32; 32],
}

pub fn zero_view() -> View
    ensures { result ≡ zero_view }
{
    View { at: [0; 32] }
}

// The stamp at i, and 0 past the last.
pub fn stamp_of(v: View, i: usize) -> u32
    ensures { result ≡ stamp_of v i }
{
    item_or(&v.at, i, 0)
}

// One entry changed, all others kept.
pub fn with_stamp(v: View, i: usize, stamp: u32) -> View
    ensures { result ≡ with_stamp v i stamp }
{
    View {
        at: with_item(v.at, i, stamp),
    }
}

// The first k entries joined, the others kept as in a.
pub fn join(a: View, b: View, k: usize) -> View
    ensures { result ≡ joined k a b }
{
    let mut v = a;
    for i in 0..k.min(32) {
        v.at[i] = v.at[i].max(b.at[i]);
    }
    v
}

// Each of the first k stamps is in range.
pub fn view_stands(v: View, k: usize) -> bool
    ensures { result ≡ view_stands k v }
{
    (0..k).all(|i| stamp_of(v, i) <= MOST)
}
