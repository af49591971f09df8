// One line of a text, written at a place of a lent buffer: its ranges first, then its room.
#![tactic(auto)]

ghost use Rattle.std.specs.Prelude.{◌≡◌, ◌+◌, ◌≤◌, length};
ghost use Rattle.number.specs.Buffer.{put_at, placed, Wrote};
ghost use Rattle.form.specs.Text.{word_text, operand_text, lead_text, form_text, fields_text};
ghost use Rattle.writer.specs.Writer.{line_written, line_placed};

use form::{Fields, Kind, Line};

// Why a line is not written: a number of it is outside its range, or the buffer is too short.
#[derive(Clone, Copy, PartialEq, Eq)]
pub enum Unwritten {
    NotInRange,
    NoRoom,
}

// A word up to its end or a 0, at a place of a lent buffer.
pub fn put_word(buf: &mut [u8], at: usize, w: &[u8]) -> Option<usize>
    ensures { (result ≡ put_at buf.old at (word_text w.now)) × (buf.new ≡ placed buf.old at (word_text w.now)) }
{
    let n = measure::word_width(w);
    number::put_bytes(buf, at, &w[..n])
}

// A word up to its end or a 0, where there is room: the next place.
fn write_word(buf: &mut [u8], at: usize, w: &[u8]) -> usize
    requires { at + length (word_text w.now) ≤ length buf.old }
    ensures { Wrote buf.old at (word_text w.now) result buf.new }
{
    put_word(buf, at, w).unwrap_or(at)
}

// An operand with the space before it, where there is room: the next place.
fn write_operand(buf: &mut [u8], at: usize, kind: Kind, v: u32) -> usize
    requires { at + length (operand_text kind v) ≤ length buf.old }
    ensures { Wrote buf.old at (operand_text kind v) result buf.new }
{
    match kind {
        Kind::Nothing => at,
        Kind::Count(_, _) => {
            let p = number::put_byte(buf, at, 32).unwrap_or(at);
            number::put_number(buf, p, v as u64).unwrap_or(p)
        }
        Kind::Thousandths => {
            let p = number::put_byte(buf, at, 32).unwrap_or(at);
            number::put_weight(buf, p, v as u64).unwrap_or(p)
        }
    }
}

// What leads a line, where there is room: the next place.
fn write_lead(buf: &mut [u8], at: usize, kind: Kind, v: u32) -> usize
    requires { at + length (lead_text kind v) ≤ length buf.old }
    ensures { Wrote buf.old at (lead_text kind v) result buf.new }
{
    match kind {
        Kind::Nothing => at,
        Kind::Count(_, _) => {
            let p = number::put_number(buf, at, v as u64).unwrap_or(at);
            number::put_byte(buf, p, 32).unwrap_or(p)
        }
        Kind::Thousandths => number::put_weight(buf, at, v as u64).unwrap_or(at),
    }
}

// A row's word and operands and the LF, where there is room: the next place.
fn write_form(buf: &mut [u8], at: usize, form: usize, a: u32, b: u32, c: u32) -> usize
    requires { at + length (form_text form a b c) ≤ length buf.old }
    ensures { Wrote buf.old at (form_text form a b c) result buf.new }
{
    let row = form::form_at(form);
    let word = row.0;
    let ka = row.1;
    let kb = row.2;
    let kc = row.3;
    let p = write_word(buf, at, &word);
    let q = write_operand(buf, p, ka, a);
    let r = write_operand(buf, q, kb, b);
    let s = write_operand(buf, r, kc, c);
    number::put_byte(buf, s, 10).unwrap_or(s)
}

// A whole line, where there is room: the next place.
fn write_fields(buf: &mut [u8], at: usize, lead: Kind, f: Fields) -> usize
    requires { at + length (fields_text lead f) ≤ length buf.old }
    ensures { Wrote buf.old at (fields_text lead f) result buf.new }
{
    let p = write_lead(buf, at, lead, f.lead);
    write_form(buf, p, f.form, f.a, f.b, f.c)
}

// A line at a place of a lent buffer: the place after it.
pub fn put_line(buf: &mut [u8], at: usize, line: Line) -> Result<usize, Unwritten>
    ensures { (result ≡ line_written buf.old at line) × (buf.new ≡ line_placed buf.old at line) }
{
    let lead = form::lead_kind(form::due_of(line));
    let f = form::fields_of(line);
    if !measure::fields_in_range(lead, f) {
        return Err(Unwritten::NotInRange);
    }
    if !number::has_room(buf, at, measure::fields_width(lead, f)) {
        return Err(Unwritten::NoRoom);
    }
    Ok(write_fields(buf, at, lead, f))
}
