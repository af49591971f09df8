// A line measured before it is written: whether its numbers are in their ranges, and how many bytes it has.
#![tactic(auto)]

ghost use Rattle.std.specs.Prelude.{◌≡◌, length};
ghost use Rattle.form.specs.Range.{in_range};
ghost use Rattle.form.specs.Line.{fields_in_range};
ghost use Rattle.form.specs.Text.{word_text, operand_text, lead_text, form_text, fields_text};

use form::{Fields, Kind};

// A number is in the range of its kind.
fn in_range(kind: Kind, v: u32) -> bool
    ensures { result ≡ in_range kind v }
{
    form::limit(kind, v as u64).is_some()
}

// Every number of a line is in its range.
pub fn fields_in_range(lead: Kind, f: Fields) -> bool
    ensures { result ≡ fields_in_range lead f }
{
    let row = form::form_at(f.form);
    let ka = row.1;
    let kb = row.2;
    let kc = row.3;
    in_range(lead, f.lead) && in_range(ka, f.a) && in_range(kb, f.b) && in_range(kc, f.c)
}

// How many bytes a word has, up to its end or a 0.
pub fn word_width(w: &[u8]) -> usize
    ensures { result ≡ length (word_text w.now) }
{
    w.iter().take_while(|b| **b != 0).count()
}

fn operand_width(kind: Kind, v: u32) -> usize
    ensures { result ≡ length (operand_text kind v) }
{
    match kind {
        Kind::Nothing => 0,
        Kind::Count(_, _) => number::number_width(v as u64) + 1,
        Kind::Thousandths => number::weight_width(v as u64) + 1,
    }
}

fn lead_width(kind: Kind, v: u32) -> usize
    ensures { result ≡ length (lead_text kind v) }
{
    match kind {
        Kind::Nothing => 0,
        Kind::Count(_, _) => number::number_width(v as u64) + 1,
        Kind::Thousandths => number::weight_width(v as u64),
    }
}

// The row and its operands are four parameters, here and in `writer`, as `form_text` has them: what leads a line is no part of them.
fn form_width(form: usize, a: u32, b: u32, c: u32) -> usize
    ensures { result ≡ length (form_text form a b c) }
{
    let row = form::form_at(form);
    let word = row.0;
    let ka = row.1;
    let kb = row.2;
    let kc = row.3;
    let w = word_width(&word);
    let x = operand_width(ka, a);
    let y = operand_width(kb, b);
    let z = operand_width(kc, c);
    w + (x + (y + (z + 1)))
}

// How many bytes a line has.
pub fn fields_width(lead: Kind, f: Fields) -> usize
    ensures { result ≡ length (fields_text lead f) }
{
    lead_width(lead, f.lead) + form_width(f.form, f.a, f.b, f.c)
}
