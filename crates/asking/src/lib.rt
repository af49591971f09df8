// What a step asks of the list of writes: its plain access, and the one search that serves it.
#![tactic(auto)]

ghost use Rattle.std.specs.Prelude.{◌≡◌};
ghost use Rattle.asking.specs.Ask.{records_asked, judged_unless, ask_by, ask_of, rank_ask_of};
ghost use Rattle.asking.specs.Bounds.{Small};
ghost use Rattle.rules.specs.Access.{slot_cell, stamped_at, access_of, cell_asked, stamp_asked};
ghost use Rattle.rules.specs.Step.{asked};

use state::{Machine, Place, Shape, index};
use step::{Step, Verb};
use writes::{Access, Query};

// A step, and whether the state and the list are known to stand, as they are after a step that was taken.
#[derive(Clone, Copy)]
pub struct Asked {
    pub step: Step,
    pub known: bool,
}

// What is asked of the list: the plain access to be made, how many records are searched, and for what.
#[derive(Clone, Copy)]
pub struct Ask {
    pub access: Access,
    pub held: usize,
    pub query: Query,
}

// The cell that a record names for the slot of a rank. The bound is a clause, here and where this is called: a type that has it would be
// made of a machine's shape at each call and taken apart again.
fn slot_cell(shape: Shape, rank: u32) -> u32
    requires { Small shape }
    ensures { result ≡ slot_cell shape rank }
{
    shape.plain + 1 + rank::slot_of(rank, shape.slots)
}

// The fourth row of the two calls; at any other place a stamp makes no access.
fn stamped_at(shape: Shape, p: Place, stamp: u32) -> Access
    requires { Small shape }
    ensures { result ≡ stamped_at shape p stamp }
{
    match p {
        Place::PutWrite { rank, weight } => {
            let cell = slot_cell(shape, rank);
            Access::Writes {
                cell,
                stamp,
                value: weight,
            }
        }
        Place::TakeRead { rank } => {
            let cell = slot_cell(shape, rank);
            Access::Reads { cell, stamp }
        }
        _ => Access::NoAccess,
    }
}

fn access_of(shape: Shape, verb: Verb, p: Place) -> Access
    requires { Small shape }
    ensures { result ≡ access_of shape verb p }
{
    match verb {
        Verb::Get { cell, stamp } => Access::Reads { cell, stamp },
        Verb::Set { cell, value, stamp } => Access::Writes { cell, stamp, value },
        Verb::GoAt { stamp } => stamped_at(shape, p, stamp),
        _ => Access::NoAccess,
    }
}

// Cell and stamp by a function each: one that gave both would be taken apart at both its uses.
fn cell_asked(a: Access) -> u32
    ensures { result ≡ cell_asked a }
{
    match a {
        Access::NoAccess => 0,
        Access::Reads { cell, .. } | Access::Writes { cell, .. } => cell,
    }
}

fn stamp_asked(a: Access) -> u32
    ensures { result ≡ stamp_asked a }
{
    match a {
        Access::NoAccess => 0,
        Access::Reads { stamp, .. } | Access::Writes { stamp, .. } => stamp,
    }
}

// The access that a step makes.
fn asked_of(m: Machine, step: Step) -> Access
    requires { Small m.shape }
    ensures { result ≡ asked m step }
{
    access_of(m.shape, step.verb, state::place_of(m, index(step.thread)))
}

// How many records are searched: none where no access is made and the records are known to stand.
fn records_asked(known: bool, access: Access, held: usize) -> usize
    ensures { result ≡ records_asked known access held }
{
    match access {
        Access::NoAccess if known => 0,
        _ => held,
    }
}

// Records that are known to stand are not judged.
fn judged_unless(known: bool, q: Query) -> Query
    ensures { result ≡ judged_unless known q }
{
    if known {
        return writes::unjudged(q);
    }
    q
}

// The list is searched once for an access: whether every held record stands, what the access finds, the newest write of its cell.
fn ask_by(known: bool, m: Machine, access: Access) -> Ask
    ensures { result ≡ ask_by known m access }
{
    let cell = cell_asked(access);
    let first = state::first_of(m, index(cell));
    let cells = state::cells_of(m);
    let held = records_asked(known, access, state::held_of(m));
    let query = judged_unless(
        known,
        writes::sought(cells, first, cell, stamp_asked(access)),
    );
    Ask {
        access,
        held,
        query,
    }
}

// What a step asks of a list of so many; a state whose sizes do not stand asks of no cell.
pub fn ask_of(m: Machine, lent: usize, asked: Asked) -> Ask
    ensures { result ≡ ask_of asked.known m lent asked.step }
{
    let sized = standing::sizes_stand(m, lent);
    if sized {
        let step = asked.step;
        return ask_by(asked.known, m, asked_of(m, step));
    }
    ask_by(asked.known, m, Access::NoAccess)
}

// What is asked to know what the queue holds at a rank.
pub fn ask_rank(m: Machine, lent: usize, rank: u32) -> Ask
    ensures { result ≡ rank_ask_of m lent rank }
{
    let sized = standing::sizes_stand(m, lent);
    if sized {
        let cell = slot_cell(m.shape, rank);
        return ask_by(false, m, Access::Reads { cell, stamp: 0 });
    }
    ask_by(false, m, Access::NoAccess)
}
