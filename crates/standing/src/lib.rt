// Which states can stand (refusal 14).
#![tactic(auto)]

ghost use Rattle.std.specs.Prelude.{◌≡◌};
ghost use Rattle.laws.specs.Tests.{◌and◌};
ghost use Rattle.parts.specs.Parts.{parts_stand};
ghost use Rattle.standing.specs.Stands.{in_shape, shape_stands, sizes_stand, stands};
ghost use Rattle.state.specs.State.{cells_of};
ghost use Rattle.writes.specs.Searched.{sought_of};

use laws::both;
use state::{Machine, Shape};
use writes::{Query, Write};

// T, C, the number of plain cells and that of flags are in range.
pub fn in_shape(threads: usize, slots: usize, plain: usize, flags: usize) -> bool
    ensures { result ≡ in_shape threads slots plain flags }
{
    let t = both(1 <= threads, threads <= 8);
    let c = both(1 <= slots, slots <= 16);
    both(both(t, c), both(plain <= 16, flags <= 8))
}

fn shape_stands(s: Shape) -> bool
    ensures { result ≡ shape_stands s }
{
    in_shape(
        s.threads as usize,
        s.slots as usize,
        s.plain as usize,
        s.flags as usize,
    )
}

// The counts are in range, and the list is not shorter than the held count.
pub fn sizes_stand(m: Machine, lent: usize) -> bool
    ensures { result ≡ sizes_stand m lent }
{
    let counted = both(
        m.steps <= 4096,
        both(m.held <= 1024, (m.held as usize) <= lent),
    );
    both(shape_stands(m.shape), counted)
}

// The whole state and a list of so many can stand, where a search of the held records has found so much.
pub fn stands_by(m: Machine, lent: usize, q: Query) -> bool
    ensures { result ≡ sizes_stand m lent and (parts_stand m and q.looked.stand) }
{
    let sized = sizes_stand(m, lent);
    if !sized {
        return false;
    }
    let looked = q.looked;
    both(parts::parts_stand(m), looked.stand)
}

// A search that asks of no cell, only whether every held record stands.
fn asked_of(m: Machine) -> Query
    ensures { result ≡ sought_of (cells_of m) 0 0 0 }
{
    writes::sought(state::cells_of(m), 0, 0, 0)
}

// The whole state and list can stand.
pub fn state_stands(m: Machine, ws: &[Write]) -> bool
    ensures { result ≡ stands m ws.now }
{
    let lent = ws.len();
    let q = writes::search(ws, state::held_of(m), asked_of(m));
    stands_by(m, lent, q)
}
