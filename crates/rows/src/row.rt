// Up to eight part states by value, and how many there are.
ghost use Rattle.rows.specs.Row.{PoweredUp, chosen_of, with_state};
ghost use Rattle.std.specs.Prelude.{◌≡◌};

use chip::state::State;

#[derive(Clone, Copy)]
pub struct Row {
    pub count: usize,
    pub states: [State; 8],
}

// So many parts, each as at power-up.
#[tactic(auto, unfolding(crate::specs::Row::empty_row))]
pub fn power_up(count: usize) -> Row
    ensures { PoweredUp count result }
{
    let s = chip::reset::power_up();
    let states = [s; 8];
    Row {
        count: count,
        states: states,
    }
}

#[tactic(auto, unfolding(crate::specs::Row::with_state))]
pub fn with_state(row: Row, i: usize, s: State) -> Row
    ensures { result ≡ with_state row i s }
{
    let mut r = row;
    if i < 8 {
        r.states[i] = s;
    }
    r
}

// The row's own state at a place, or the one handed in where the row has none.
#[tactic(auto, unfolding(crate::specs::Row::chosen_of))]
pub fn chosen(row: Row, i: usize, s: State) -> State
    ensures { result ≡ chosen_of row i s }
{
    if i < 8 { row.states[i] } else { s }
}
