// The report of a text for callers in another language: the static library that has the symbol `dentralupo_report`.
#![tactic(auto)]

ghost use Rattle.std.specs.Prelude.{◌≡◌};
ghost use Rattle.outside_report.specs.Call.{called, lent};
ghost use Rattle.outside_report.specs.Promise.{CallWhole};

// `outside_report::dentralupo_report`, by that name: a crate is a library, which others prove on, or a static library.
#[unsafe(no_mangle)]
pub extern "C" fn dentralupo_report(
    text: &[u8],
    first: &mut [u8],
    stop: &mut usize,
    rest: &mut [u8],
    upto: &mut usize,
) -> u32
    ensures leaves { lent result first.new stop.new rest.new upto.new ≡ called text.now first.old rest.old }
    ensures whole { CallWhole }
{
    outside_report::dentralupo_report(text, first, stop, rest, upto)
}
