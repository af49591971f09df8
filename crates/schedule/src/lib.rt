// The sections of a schedule's text, read from the front: each header line, and under it its lines.
#![tactic(auto)]

ghost use Rattle.std.specs.Prelude.{◌≡◌};
ghost use Rattle.schedule.specs.Sections.{count_in, lines_past, lines_under, line_due, noted, nothing_found, sections};
ghost use Rattle.schedule.specs.Reading.{passed_to};

use fault::Refusal;
use form::{Due, Header, Line};
use reader::Reader;

// So many lines, and the place of the first of them.
#[derive(Clone, Copy)]
pub struct Section {
    pub count: u32,
    pub at: usize,
}

// What the sections of a text hold; its lines are read one at a time from there.
#[derive(Clone, Copy)]
pub struct Sections {
    pub threads: u32,
    pub slots: u32,
    pub plain: Section,
    pub flag: Section,
    pub steps: Section,
}

// The header lines, in their order.
const HEADERS: [Header; 6] = [
    Header::Shape,
    Header::Threads,
    Header::Slots,
    Header::Plain,
    Header::Flag,
    Header::Steps,
];

// The count that a header line gives. Total, as its definition: a header line that is due is one, and no call gives it another.
fn count_in(line: Line) -> u32
    ensures { result ≡ count_in line }
{
    match line {
        Line::HeaderLine(_, n) => n,
        Line::WeightLine(_) => 0,
        Line::StepLine(_) => 0,
    }
}

// How many lines a header line with a count has under it.
fn lines_under(h: Header, n: u32) -> u32
    ensures { result ≡ lines_under h n }
{
    match h {
        Header::Shape => 0,
        Header::Threads => 0,
        Header::Slots => 0,
        Header::Plain => n,
        Header::Flag => n,
        Header::Steps => n,
    }
}

// What a line of a section is.
fn line_due(h: Header) -> Due
    ensures { result ≡ line_due h }
{
    match h {
        Header::Shape => Due::WeightDue,
        Header::Threads => Due::WeightDue,
        Header::Slots => Due::WeightDue,
        Header::Plain => Due::WeightDue,
        Header::Flag => Due::WeightDue,
        Header::Steps => Due::StepDue,
    }
}

// Before any header line is read.
fn nothing_found() -> Sections
    ensures { result ≡ nothing_found }
{
    let none = Section { count: 0, at: 0 };
    Sections {
        threads: 0,
        slots: 0,
        plain: none,
        flag: none,
        steps: none,
    }
}

// What was found, with what a header line says: a count, and the place after it.
fn note(h: Header, n: u32, at: usize, found: Sections) -> Sections
    ensures { result ≡ noted h n at found }
{
    let mut f = found;
    let s = Section { count: n, at };
    match h {
        Header::Shape => f,
        Header::Threads => {
            f.threads = n;
            f
        }
        Header::Slots => {
            f.slots = n;
            f
        }
        Header::Plain => {
            f.plain = s;
            f
        }
        Header::Flag => {
            f.flag = s;
            f
        }
        Header::Steps => {
            f.steps = s;
            f
        }
    }
}

// So many lines, one after the other.
fn read_lines(r: &mut Reader, due: Due, count: u32) -> Result<(), Refusal>
    ensures place { passed_to result r.new.at ≡ lines_past count due r.old.text.now r.old.at }
    ensures text { r.new.text ≡ r.old.text }
{
    for _ in 0..count {
        r.next_line(due)?;
    }
    Ok(())
}

// The sections of a text of any length.
pub fn read_sections(text: &[u8]) -> Result<Sections, Refusal>
    ensures { result ≡ sections text.now }
{
    let mut r = Reader::on(text);
    let mut found = nothing_found();
    for h in HEADERS {
        let n = count_in(r.next_line(Due::HeaderDue(h))?);
        found = note(h, n, r.at, found);
        read_lines(&mut r, line_due(h), lines_under(h, n))?;
    }
    if r.at < text.len() {
        return Err(Refusal::Extra(r.at));
    }
    Ok(found)
}
