// Retransmit: how far its setup has come on the read side, and how far the write side has seen it.
ghost use Rattle.views.specs.Retransmit.{is_over, just_begun, is_seen, setup_after, view_after};
ghost use Rattle.std.specs.Prelude.{◌≡◌};

// How many more RCLK rises the setup lasts.
#[derive(Clone, Copy, Debug, PartialEq, Eq)]
pub enum Setup {
    Over,
    OneMore,
    TwoMore,
}

// No count from after the last retransmit taken yet by a WCLK rise, one taken, or the retransmit seen.
#[derive(Clone, Copy, Debug, PartialEq, Eq)]
pub enum View {
    Unseen,
    Taken,
    Seen,
}

pub fn is_over(setup: Setup) -> bool
    ensures { result ≡ is_over setup }
{
    setup == Setup::Over
}

pub fn has_just_begun(setup: Setup) -> bool
    ensures { result ≡ just_begun setup }
{
    setup == Setup::TwoMore
}

pub fn is_seen(view: View) -> bool
    ensures { result ≡ is_seen view }
{
    view == View::Seen
}

pub fn setup_after(rises: bool, rt: bool, setup: Setup) -> Setup
    ensures { result ≡ setup_after rises rt setup }
{
    if rises {
        if rt {
            match setup {
                Setup::Over => Setup::Over,
                Setup::OneMore => Setup::Over,
                Setup::TwoMore => Setup::OneMore,
            }
        } else {
            Setup::TwoMore
        }
    } else {
        setup
    }
}

pub fn view_after(retransmits: bool, rises: bool, after_retransmit: bool, view: View) -> View
    ensures { result ≡ view_after retransmits rises after_retransmit view }
{
    if retransmits {
        View::Unseen
    } else if rises {
        match view {
            View::Unseen => if after_retransmit {
                View::Taken
            } else {
                View::Unseen
            },
            View::Taken => View::Seen,
            View::Seen => View::Seen,
        }
    } else {
        view
    }
}
