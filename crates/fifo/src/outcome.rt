// What an outcome stands for, by its cases; its refusal may be told by name or by number.
ghost use Rattle.fifo.specs.Outcome.{seen};
ghost use Rattle.fifo.specs.Sample.{answer_in, number_of};
ghost use Rattle.std.specs.Prelude.{◌≡◌};

use refusal_kinds::Told;

pub fn number_of<T: Told>(outcome: Result<u32, T>) -> u8
    ensures { result ≡ number_of (seen T.told outcome) }
{
    match outcome {
        Ok(_) => 0,
        Err(refusal) => refusal.to_number(),
    }
}

pub fn answer_of<T: Told>(outcome: Result<u32, T>) -> u32
    ensures { result ≡ answer_in (seen T.told outcome) }
{
    outcome.unwrap_or(0)
}
