// Tests of what a line asks: its kind, the cell or flag that it names, its greatest number.
#![tactic(auto)]

ghost use Rattle.std.specs.Prelude.{◌≡◌};
ghost use Rattle.verbs.specs.Verbs.{among, asks, named, greatest};

use state::Shape;
use step::{LineKind, Verb};

pub fn is_among(n: u32, high: u32) -> bool
    ensures { result ≡ among n high }
{
    0 < n && n <= high
}

// Which kind of line a verb is.
pub fn kind_of(verb: Verb) -> LineKind
    ensures { result ≡ asks verb }
{
    match verb {
        Verb::Go => LineKind::Goes,
        Verb::GoAt { .. } => LineKind::GoesAt,
        _ => LineKind::Begins,
    }
}

// The cell or flag that an access names is one of this machine's.
pub fn is_named(shape: Shape, verb: Verb) -> bool
    ensures { result ≡ named shape verb }
{
    match verb {
        Verb::Get { cell, .. } | Verb::Set { cell, .. } => is_among(cell, shape.plain),
        Verb::Load { flag } | Verb::Store { flag, .. } | Verb::Swap { flag, .. } => is_among(
            flag,
            shape.flags,
        ),
        _ => true,
    }
}

// The greatest weight or stamp of a line, 0 where it has none.
pub fn greatest_of(verb: Verb) -> u32
    ensures { result ≡ greatest verb }
{
    match verb {
        Verb::Get { stamp, .. } | Verb::GoAt { stamp } => stamp,
        Verb::Set { value, stamp, .. } => value.max(stamp),
        Verb::Store { value, .. } | Verb::Put { value } => value,
        Verb::Swap { old, new, .. } => old.max(new),
        Verb::Load { .. } | Verb::Take | Verb::Go => 0,
    }
}
