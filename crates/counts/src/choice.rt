// One of two values, by a test. A function of its own, since a choice between its calls splits no proof in two.
ghost use Rattle.std.specs.Prelude.{cond, ◌≡◌};

pub fn pick<T: Copy>(first: bool, one: T, other: T) -> T
    ensures { result ≡ cond first one other }
{
    if first { one } else { other }
}
