// Reads a schedule on standard input and prints its report. The contracts say that there is room for all of it.
#![tactic(auto)]

ghost use Rattle.std.specs.Prelude.{◌≤◌, length};
ghost use Rattle.printed.specs.Printed.{printed_text};
ghost use Rattle.report.specs.Inside.{Inside};

use printed::Printed;

// A buffer and how much of it is used: there is no heap. A part that is named is proved; `&bytes[..n]` as an argument was not.
fn show_first(bytes: &[u8], n: usize)
    requires { n ≤ length bytes.now }
{
    let from = 0;
    let part = &bytes[from..n];
    io::write_all(1, part);
}

// What was put into a buffer.
fn show_upto(bytes: &[u8], upto: Option<usize>)
    requires { Inside upto (length bytes.now) }
{
    if let Some(n) = upto {
        show_first(bytes, n);
    }
}

fn show_line(line: Printed)
    requires { length (printed_text line) ≤ 64 }
{
    let mut room = [0u8; 64];
    let upto = printed::put_printed(&mut room, 0, line);
    show_upto(&room, upto);
}

fn show_report(text: &[u8], out: &mut [u8])
    requires { 131072 ≤ length out.old }
{
    let r = reported::report(text, out);
    show_line(r.first);
    show_upto(out, r.upto);
}

fn main() {
    // One byte more than a text may have, so that a longer one is seen to be longer.
    let mut input = [0u8; 65537];
    let n = io::read_full(0, &mut input);
    let mut lines = [0u8; 131072];
    show_report(&input[..n], &mut lines);
}
