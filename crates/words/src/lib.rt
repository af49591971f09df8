// The image of a state, written.
#![tactic(auto)]

ghost use Rattle.std.specs.Prelude.{◌≡◌, ◌++◌, ℕ, ◌+◌, ◌*◌, ◌≤◌, length};
ghost use Rattle.image.specs.Image.{in_turn, atomic_words, thread_words, heading, words_of};
ghost use Rattle.number.specs.Buffer.{placed, Wrote};
ghost use Rattle.state.specs.State.{atomic_at};
ghost use Rattle.state.specs.declared.Name.{Name};

use state::{Machine, Name};
use view::View;

// Words at a place, where there is room: the next place. As `write_bytes` in `number`: one for both would be public, and no public function
// asks for room.
fn write_words(buf: &mut [u32], p: usize, words: &[u32]) -> usize
    requires { p + length words.now ≤ length buf.old }
    ensures { Wrote buf.old p words.now result buf.new }
{
    let next = p + words.len();
    buf[p..next].copy_from_slice(words);
    next
}

// Some words and the stamps of a view: an entry of the image.
fn write_entry(buf: &mut [u32], p: usize, words: &[u32], view: View) -> usize
    requires { p + length words.now + 32 ≤ length buf.old }
    ensures wrote { Wrote buf.old p (words.now ++ view.at) result buf.new }
    ensures value { result ≡ p + length words.now + 32 }
{
    let stamps = view.at;
    let q = write_words(buf, p, words);
    write_words(buf, q, &stamps)
}

fn write_threads(buf: &mut [u32], p: usize, m: Machine) -> usize
    requires { p + 280 ≤ length buf.old }
    ensures wrote { Wrote buf.old p (in_turn (thread_words m) 8) result buf.new }
    ensures value { result ≡ p + 280 }
{
    let mut q = p;
    for i in 0..8 {
        let words = image::place_words(state::place_of(m, i));
        q = write_entry(buf, q, &words, state::row_of(m, i));
    }
    q
}

// An atomic cell of the machine.
fn write_cell(buf: &mut [u32], p: usize, m: Machine, name: Name) -> usize
    requires { p + 33 ≤ length buf.old }
    ensures wrote { Wrote buf.old p (atomic_words (atomic_at m name)) result buf.new }
    ensures value { result ≡ p + 33 }
{
    let a = state::atomic_of(m, name);
    let value = [a.value];
    write_entry(buf, p, &value, a.view)
}

// The first n atomic cells that a function names.
fn write_atomics<F: Fn(usize) -> Name>(
    buf: &mut [u32],
    p: usize,
    m: Machine,
    name: F,
    n: usize,
) -> usize
    requires room { p + 33 * n ≤ length buf.old }
    requires named { F.IsAlwaysCallable name }
    ensures wrote { (g : ℕ → Name) → ((i : _) (a : Name) → F.post name i a → a ≡ g i)
        → Wrote buf.old p (in_turn (λ i. atomic_words (atomic_at m (g i))) n) result buf.new }
    ensures value { result ≡ p + 33 * n }
{
    let mut q = p;
    for i in 0..n {
        q = write_cell(buf, q, m, name(i));
    }
    q
}

fn write_heading(buf: &mut [u32], m: Machine) -> usize
    requires { 22 ≤ length buf.old }
    ensures wrote { Wrote buf.old 0 (heading m ++ m.firsts) result buf.new }
    ensures value { result ≡ 22 }
{
    let shape = m.shape;
    let heading = [
        shape.threads,
        shape.slots,
        shape.plain,
        shape.flags,
        m.steps,
        m.held,
    ];
    let firsts = m.firsts;
    let p = write_words(buf, 0, &heading);
    write_words(buf, p, &firsts)
}

// The image of a machine.
pub fn words_of(m: Machine) -> [u32; 1160]
    ensures { result ≡ words_of m }
{
    let mut image = [0u32; 1160];
    let p = write_heading(&mut image, m);
    let p = write_threads(&mut image, p, m);
    let p = write_cell(&mut image, p, m, Name::Head);
    let p = write_cell(&mut image, p, m, Name::Tail);
    let p = write_atomics(&mut image, p, m, Name::Flag, 8);
    write_atomics(&mut image, p, m, Name::Status, 16);
    image
}

// Words from the front of a buffer on, where it has room for all of them.
pub fn put_words(buf: &mut [u32], words: &[u32])
    ensures { buf.new ≡ placed buf.old 0 words.now }
{
    if words.len() <= buf.len() {
        write_words(buf, 0, words);
    }
}
