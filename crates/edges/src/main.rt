// Runs edges of the text. Each line of standard input is a mark that says what is due, a space, and the line that is to be read
// there. A line that is taken is written back after `taken`; one that is refused is shown after its number, as it is handed back.
// Then whole texts, each with its answer: `taken`, or number and place.
#![tactic(auto)]

use fault::Refusal;
use form::{Due, Header, Line};
use writer::Unwritten;

// What is due, by the mark that the input has for it.
fn due_for(mark: u8) -> Due {
    match mark {
        b'h' => Due::HeaderDue(Header::Shape),
        b't' => Due::HeaderDue(Header::Threads),
        b'c' => Due::HeaderDue(Header::Slots),
        b'p' => Due::HeaderDue(Header::Plain),
        b'f' => Due::HeaderDue(Header::Flag),
        b'n' => Due::HeaderDue(Header::Steps),
        b'w' => Due::WeightDue,
        _ => Due::StepDue,
    }
}

fn show_taken(x: Line) {
    let mut space = [0u8; 64];
    let room: &mut [u8] = &mut space;
    match writer::put_line(room, 0, x) {
        Ok(n) => {
            io::write_all(1, b"taken ");
            show_first(room, n);
        }
        Err(Unwritten::NotInRange) => {
            io::write_all(1, b"not in range\n");
        }
        Err(Unwritten::NoRoom) => {
            io::write_all(1, b"no room\n");
        }
    }
}

// A buffer and how much of it is used: there is no heap.
fn show_first(bytes: &[u8], n: usize) {
    if let Some(part) = bytes.get(..n) {
        io::write_all(1, part);
    }
}

fn show_refused(text: &[u8], r: Refusal) {
    io::print_decimal(1, fault::number_of(r) as u64);
    io::write_all(1, b" ");
    io::write_all(1, reader::fault_of(text, r));
    io::write_all(1, b"\n");
}

fn show_case(text: &[u8], at: usize, mark: u8) {
    match reader::line_of(text, at, due_for(mark)) {
        Ok(x) => show_taken(x.value),
        Err(r) => show_refused(text, r),
    }
}

// The place after the line that begins at a place, and its LF; the end of a text that has none.
fn next_line(text: &[u8], at: usize) -> usize {
    let n = fault::line_at(text, at).len();
    at.saturating_add(n).saturating_add(1).min(text.len())
}

fn show_cases(text: &[u8]) {
    let mut at = 0;
    for _ in 0..4096 {
        let Some(mark) = text.get(at) else {
            return;
        };
        if at < 65536 {
            show_case(text, at + 2, *mark);
        }
        at = next_line(text, at);
    }
}

fn show_whole(name: &[u8], text: &[u8]) {
    io::write_all(1, name);
    match judging::judge(text) {
        Ok(_) => {
            io::write_all(1, b" taken\n");
        }
        Err(r) => {
            io::write_all(1, b" ");
            io::print_decimal(1, fault::number_of(r) as u64);
            io::write_all(1, b" ");
            io::print_decimal(1, fault::place_of(r) as u64);
            io::write_all(1, b"\n");
        }
    }
}

// The least text, and what comes short of it.
fn show_ends() {
    show_whole(b"empty", b"");
    show_whole(
        b"least",
        b"shape 2\nthreads 1\nslots 1\nplain 0\nflag 0\nsteps 0\n",
    );
    show_whole(
        b"no-last-LF",
        b"shape 2\nthreads 1\nslots 1\nplain 0\nflag 0\nsteps 0",
    );
}

// A number outside its range, and a wrong form before or after it.
fn show_ranges() {
    show_whole(
        b"threads-9",
        b"shape 2\nthreads 9\nslots 1\nplain 0\nflag 0\nsteps 0\n",
    );
    show_whole(b"threads-9-no-LF", b"shape 2\nthreads 9");
    show_whole(
        b"later-form",
        b"shape 2\nthreads 9\nslots x\nplain 0\nflag 0\nsteps 0\n",
    );
}

// A line too few or too many.
fn show_counts() {
    show_whole(
        b"one-weight-short",
        b"shape 2\nthreads 1\nslots 1\nplain 1\nflag 0\nsteps 0\n",
    );
    show_whole(
        b"one-weight-more",
        b"shape 2\nthreads 1\nslots 1\nplain 0\n1.000\nflag 0\nsteps 0\n",
    );
    show_whole(
        b"one-step-short",
        b"shape 2\nthreads 1\nslots 1\nplain 0\nflag 0\nsteps 1\n",
    );
    show_whole(
        b"one-step-more",
        b"shape 2\nthreads 1\nslots 1\nplain 0\nflag 0\nsteps 0\n1 take\n",
    );
    show_whole(
        b"empty-line-after",
        b"shape 2\nthreads 1\nslots 1\nplain 0\nflag 0\nsteps 0\n\n",
    );
}

fn main() {
    let mut buffer = io::large_buffer();
    let n = io::read_full(0, &mut buffer);
    show_cases(&buffer[..n]);
    show_ends();
    show_ranges();
    show_counts();
    let most = [0u8; 65536];
    show_whole(b"65536-bytes", &most);
    let more = [0u8; 65537];
    show_whole(b"65537-bytes", &more);
}
