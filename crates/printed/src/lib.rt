// The lines that a program prints: two or three fields, one space between fields, one LF at the end.
#![tactic(auto)]

ghost use Rattle.std.specs.Prelude.{◌≡◌, ◌+◌, ◌≤◌, length};
ghost use Rattle.number.specs.Buffer.{put_at, placed, Wrote};
ghost use Rattle.printed.specs.Printed.{spelled, field_text, ended_text, printed_text, answer_line, put_next, placed_next};

use step::Answer;

// The words of a report.
#[derive(Clone, Copy)]
pub enum Word {
    Answers,
    Queue,
    Refused,
    Text,
    Dash,
    Ok,
    Yes,
    No,
    None,
    Got,
}

// What stands between two spaces: a word, a number without a point, a weight in thousandths.
#[derive(Clone, Copy)]
pub enum Field {
    Says(Word),
    Counts(u64),
    Weighs(u32),
}

// A line that is printed.
#[derive(Clone, Copy)]
pub enum Printed {
    Two(Field, Field),
    Three(Field, Field, Field),
}

// The letters of a word. No `Display`: what is written goes into a lent buffer, byte for byte by an equation.
fn letters(w: Word) -> &'static [u8]
    ensures { result.now ≡ spelled w }
{
    match w {
        Word::Answers => b"answers",
        Word::Queue => b"queue",
        Word::Refused => b"refused",
        Word::Text => b"text",
        Word::Dash => b"-",
        Word::Ok => b"ok",
        Word::Yes => b"yes",
        Word::No => b"no",
        Word::None => b"none",
        Word::Got => b"got",
    }
}

fn field_width(f: Field) -> usize
    ensures { (result ≡ length (field_text f)) × (result ≤ 20) }
{
    match f {
        Field::Says(w) => letters(w).len(),
        Field::Counts(n) => number::number_width(n),
        Field::Weighs(v) => number::weight_width(v as u64),
    }
}

fn put_field(buf: &mut [u8], at: usize, f: Field) -> Option<usize>
    ensures { (result ≡ put_at buf.old at (field_text f)) × (buf.new ≡ placed buf.old at (field_text f)) }
{
    match f {
        Field::Says(w) => number::put_bytes(buf, at, letters(w)),
        Field::Counts(n) => number::put_number(buf, at, n),
        Field::Weighs(v) => number::put_weight(buf, at, v as u64),
    }
}

// A field and the byte after it, where there is room: the next place.
fn write_ended(buf: &mut [u8], at: usize, f: Field, b: u8) -> usize
    requires { at + length (ended_text f b) ≤ length buf.old }
    ensures { Wrote buf.old at (ended_text f b) result buf.new }
{
    let p = put_field(buf, at, f).unwrap_or(at);
    number::put_byte(buf, p, b).unwrap_or(p)
}

fn printed_width(line: Printed) -> usize
    ensures { result ≡ length (printed_text line) }
{
    match line {
        Printed::Two(a, b) => (field_width(a) + 1) + (field_width(b) + 1),
        Printed::Three(a, b, c) => {
            (field_width(a) + 1) + ((field_width(b) + 1) + (field_width(c) + 1))
        }
    }
}

// A whole line, where there is room: the next place.
fn write_printed(buf: &mut [u8], at: usize, line: Printed) -> usize
    requires { at + length (printed_text line) ≤ length buf.old }
    ensures { Wrote buf.old at (printed_text line) result buf.new }
{
    match line {
        Printed::Two(a, b) => {
            let p = write_ended(buf, at, a, 32);
            write_ended(buf, p, b, 10)
        }
        Printed::Three(a, b, c) => {
            let p = write_ended(buf, at, a, 32);
            let q = write_ended(buf, p, b, 32);
            write_ended(buf, q, c, 10)
        }
    }
}

// A line at a place of a lent buffer, by a test as `put_bytes` (number).
pub fn put_printed(buf: &mut [u8], at: usize, line: Printed) -> Option<usize>
    ensures { (result ≡ put_at buf.old at (printed_text line)) × (buf.new ≡ placed buf.old at (printed_text line)) }
{
    if number::has_room(buf, at, printed_width(line)) {
        Some(write_printed(buf, at, line))
    } else {
        None
    }
}

// A line after those that were put before it; after one that had no room there is none.
pub fn put_next(buf: &mut [u8], upto: Option<usize>, line: Printed) -> Option<usize>
    ensures { (result ≡ put_next buf.old upto line) × (buf.new ≡ placed_next buf.old upto line) }
{
    put_printed(buf, upto?, line)
}

// A thread or a rank, and what it is answered.
pub fn answer_line(n: u32, a: Answer) -> Printed
    ensures { result ≡ answer_line n a }
{
    let first = Field::Counts(n as u64);
    match a {
        Answer::Dash => Printed::Two(first, Field::Says(Word::Dash)),
        Answer::Ok => Printed::Two(first, Field::Says(Word::Ok)),
        Answer::Value { value } => Printed::Two(first, Field::Weighs(value)),
        Answer::Yes => Printed::Two(first, Field::Says(Word::Yes)),
        Answer::No => Printed::Two(first, Field::Says(Word::No)),
        Answer::None => Printed::Two(first, Field::Says(Word::None)),
        Answer::Got { weight } => {
            Printed::Three(first, Field::Says(Word::Got), Field::Weighs(weight))
        }
        Answer::Refused { number } => Printed::Two(first, Field::Counts(number as u64)),
    }
}
