// The machine that a text opens.
#![tactic(auto)]

ghost use Rattle.std.specs.Prelude.{◌≡◌, ◌≤◌, min, length, take};
ghost use Rattle.number.specs.Buffer.{Wrote};
ghost use Rattle.opening.specs.Opening.{opened_of};
ghost use Rattle.texts.specs.Schedule.{weight_in, weights_at};

use form::{Due, Line};
use schedule::{Section, Sections};
use state::Machine;

// The weight of a weight line. Total, as its definition: a weight line that is due is one.
fn weight_in(line: Line) -> u32
    ensures { result ≡ weight_in line }
{
    match line {
        Line::WeightLine(w) => w,
        _ => 0,
    }
}

// The first lines of a section, so many at most.
fn first_lines(s: Section, most: u32) -> Section
    ensures { (result.count ≡ min s.count most) × (result.at ≡ s.at) }
{
    Section {
        count: s.count.min(most),
        at: s.at,
    }
}

// The weights of a section, into a room: how many.
fn read_weights(text: &[u8], s: Section, room: &mut [u32]) -> usize
    requires { s.count ≤ length room.old }
    ensures { Wrote room.old 0 (weights_at text.now s) result room.new }
{
    let mut at = s.at;
    let count = s.count as usize;
    for n in 0..count {
        match reader::line_of(text, at, Due::WeightDue) {
            Ok(x) => {
                room[n] = weight_in(x.value);
                at = x.next;
            }
            Err(_) => {
                return n;
            }
        }
    }
    count
}

// A machine opened with the first values of two rooms, so many of each: there is no heap.
fn open_rooms(threads: u32, slots: u32, cells: &[u32], n: usize, flags: &[u32], f: usize) -> Machine
    requires { (n ≤ length cells.now) × (f ≤ length flags.now) }
    ensures { result ≡ (opened_of threads slots (take n cells.now) (take f flags.now)).machine }
{
    let opened = opening::opening(threads, slots, &cells[..n], &flags[..f]);
    let m = opened.machine;
    m
}

// The machine that a text opens, by its sections: a machine has room for 16 plain cells and 8 flags, and no section of a text that is taken
// has more.
pub fn open_text(text: &[u8], s: Sections) -> Machine
    ensures { result ≡ (opened_of s.threads s.slots (take 16 (weights_at text.now s.plain)) (take 8 (weights_at text.now s.flag))).machine }
{
    let plain = first_lines(s.plain, 16);
    let flag = first_lines(s.flag, 8);
    let mut firsts = [0u32; 16];
    let cells: &mut [u32] = &mut firsts;
    let n = read_weights(text, plain, cells);
    let mut values = [0u32; 8];
    let flags: &mut [u32] = &mut values;
    let f = read_weights(text, flag, flags);
    open_rooms(s.threads, s.slots, cells, n, flags, f)
}
