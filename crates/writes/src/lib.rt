// The list of writes, lent as a slice of records. One search, one store: nothing else touches it.
#![tactic(auto)]

ghost use Rattle.std.specs.Prelude.{◌≡◌, set, take};
ghost use Rattle.writes.specs.Records.{no_write, fill, fill_of};
ghost use Rattle.writes.specs.History.{shown_by, newer, record_stands};
ghost use Rattle.writes.specs.Searched.{sought_of, unjudged_of, stand_still, looked_at, searched};

use laws::both;
use step::MOST;

// One write of a plain cell. Callers in other languages lend the same, field after field.
#[repr(C)]
#[derive(Clone, Copy)]
pub struct Write {
    pub cell: u32,
    pub stamp: u32,
    pub value: u32,
}

// The greatest stamp of a cell's history and the value there.
#[derive(Clone, Copy)]
pub struct Newest {
    pub stamp: u32,
    pub value: u32,
}

// What a search answers: whether every record stands, the value at the stamp asked if there is one, the newest write of the cell asked.
#[derive(Clone, Copy)]
pub struct Looked {
    pub stand: bool,
    pub found: Option<u32>,
    pub newest: Newest,
}

// What a search asks of a machine with so many cells, whether it judges the records, and what it has found so far.
#[derive(Clone, Copy)]
pub struct Query {
    pub judged: bool,
    pub cells: usize,
    pub cell: u32,
    pub stamp: u32,
    pub looked: Looked,
}

// The plain access that a step makes.
#[derive(Clone, Copy)]
pub enum Access {
    NoAccess,
    Reads { cell: u32, stamp: u32 },
    Writes { cell: u32, stamp: u32, value: u32 },
}

// The record that an access fills, and where.
#[derive(Clone, Copy)]
pub struct Fill {
    pub at: usize,
    pub write: Write,
}

fn shown_by(w: Write, cell: u32, stamp: u32) -> Option<u32>
    ensures { result ≡ shown_by w cell stamp }
{
    both(w.cell == cell, w.stamp == stamp).then_some(w.value)
}

fn newer_of(s: Newest, w: Write, cell: u32) -> Newest
    ensures { result ≡ newer s w cell }
{
    if both(w.cell == cell, s.stamp < w.stamp) {
        return Newest {
            stamp: w.stamp,
            value: w.value,
        };
    }
    s
}

// The record names one of k cells, and its stamp and value are in range.
fn record_stands(w: Write, k: usize) -> bool
    ensures { result ≡ record_stands k w }
{
    both(
        1 <= w.cell,
        both(
            (w.cell as usize) <= k,
            both(w.stamp <= MOST, w.value <= MOST),
        ),
    )
}

// A search for a cell and a stamp before any record: the cell's first write has the value first, and the machine has k cells.
pub fn sought(k: usize, first: u32, cell: u32, stamp: u32) -> Query
    ensures { result ≡ sought_of k first cell stamp }
{
    let found = (stamp == 0).then_some(first);
    let newest = Newest {
        stamp: 0,
        value: first,
    };
    let looked = Looked {
        stand: true,
        found,
        newest,
    };
    Query {
        judged: true,
        cells: k,
        cell,
        stamp,
        looked,
    }
}

// The same of records that are known to stand.
pub fn unjudged(q: Query) -> Query
    ensures { result ≡ unjudged_of q }
{
    Query { judged: false, ..q }
}

// The records before and this one stand, where that is judged.
fn stand_still(judged: bool, before: bool, w: Write, k: usize) -> bool
    ensures { result ≡ stand_still judged before (record_stands k w) }
{
    if judged {
        return both(before, record_stands(w, k));
    }
    before
}

// One record more, for every question.
fn look_whole(q: Query, w: Write) -> Query
    ensures { result ≡ looked_at q w }
{
    let so_far = q.looked;
    let stand = stand_still(q.judged, so_far.stand, w, q.cells);
    let found = so_far.found.or(shown_by(w, q.cell, q.stamp));
    let newest = newer_of(so_far.newest, w, q.cell);
    let looked = Looked {
        stand,
        found,
        newest,
    };
    Query { looked, ..q }
}

// One record more. Where none is judged, most change nothing: those of other cells, and those at other stamps that are not newer.
fn look_at(q: Query, w: Write) -> Query
    ensures { result ≡ looked_at q w }
{
    if q.judged {
        return look_whole(q, w);
    }
    if w.cell != q.cell {
        return q;
    }
    if w.stamp == q.stamp {
        return look_whole(q, w);
    }
    let so_far = q.looked;
    let last = so_far.newest;
    if w.stamp <= last.stamp {
        return q;
    }
    let newest = Newest {
        stamp: w.stamp,
        value: w.value,
    };
    // Copies with a field changed: with literals by `..` the program takes more instructions.
    let mut looked = so_far;
    looked.newest = newest;
    let mut next = q;
    next.looked = looked;
    next
}

// A search of the first n records.
pub fn search(ws: &[Write], n: usize, from: Query) -> Query
    ensures { result ≡ searched from (take n ws.now) }
{
    let mut q = from;
    for w in &ws[..n.min(ws.len())] {
        q = look_at(q, *w);
    }
    q
}

// The same of a list that is held by value.
pub fn search_kept(ws: [Write; 1024], n: usize, from: Query) -> Query
    ensures { result ≡ searched from (take n ws) }
{
    search(&ws, n, from)
}

// The record after the held ones, if the access writes one; else one past the last of the records lent, where nothing is stored.
#[tactic(auto, unfolding(crate::specs::Records::fill_of))]
pub fn fill_of(access: Access, held: usize, lent: usize) -> Fill
    ensures { result ≡ fill_of access held lent }
{
    match access {
        Access::Writes { cell, stamp, value } => {
            let write = Write { cell, stamp, value };
            Fill { at: held, write }
        }
        _ => Fill {
            at: lent,
            write: Write {
                cell: 0,
                stamp: 0,
                value: 0,
            },
        },
    }
}

// The record at `at` is replaced, if there is one.
pub fn store(ws: &mut [Write], at: usize, w: Write)
    ensures { ws.new ≡ set ws.old at w }
{
    // By index: after a write through `get_mut` a proof knows the slice's length, and no element.
    if at < ws.len() {
        ws[at] = w;
    }
}
