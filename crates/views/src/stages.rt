// The two sides, on the stages: which of the other side's counts one takes, and what it remembers for that. Both sides do alike: a side
// remembers whether the other clock rose since its own rise or a reset, and then the other side's count that the latest such rise found.
ghost use Rattle.std.specs.Prelude.{◌≡◌};
ghost use Rattle.views.specs.Stages.{count_taken, looks_past, rise_after};

use counts::round::ReadCount;

pub fn looks_past(met: bool, latest: Option<ReadCount>) -> bool
    ensures { result ≡ looks_past met latest }
{
    latest.is_some() & !met
}

pub fn take<C: Copy>(met: bool, latest: Option<C>, count: C) -> C
    ensures { result ≡ count_taken met latest count }
{
    match latest {
        None => count,
        Some(earlier) => counts::choice::pick(met, count, earlier),
    }
}

pub fn remember<C: Copy>(own: bool, other: bool, count: C, latest: Option<C>) -> Option<C>
    ensures { result ≡ rise_after own other count latest }
{
    if other {
        Some(count)
    } else if own {
        None
    } else {
        latest
    }
}
