// The report of a text for callers in another language: the bytes that the report program prints, in two lent buffers.
#![tactic(auto)]

ghost use Rattle.std.specs.Prelude.{◌≡◌};
ghost use Rattle.outside_report.specs.Call.{called, lent, number_or};
ghost use Rattle.outside_report.specs.Promise.{CallWhole};

// The paper's number, which the call returns to C: 15 where a buffer was too short, else the one given.
fn number_or(upto: Option<usize>, n: u32) -> u32
    ensures { result ≡ number_or upto n }
{
    if upto.is_some() { n } else { 15 }
}

// The report of any text: its first line in `first`, the other lines in `rest`, and how many bytes each then has of it. 0 is returned, or
// 15 where a line had no room. With 64 and 131,072 bytes lent there is always room.
pub fn dentralupo_report(
    text: &[u8],
    first: &mut [u8],
    stop: &mut usize,
    rest: &mut [u8],
    upto: &mut usize,
) -> u32
    ensures leaves { lent result first.new stop.new rest.new upto.new ≡ called text.now first.old rest.old }
    ensures whole { CallWhole }
{
    let r = reported::report(text, rest);
    let line = r.first;
    let others = r.upto;
    let put = printed::put_printed(first, 0, line);
    *stop = put.unwrap_or(0);
    *upto = others.unwrap_or(0);
    let n = number_or(others, 0);
    number_or(put, n)
}
