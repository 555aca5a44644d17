//! The worked figures, as one theorem over one list.
#![tactic(auto)]

ghost use Rattle.figures.specs.Figures.{Stand, figures as the_figures};
ghost use Rattle.std.specs.Prelude.{◌≡◌, length};

// How many worked figures there are; every one of them is right.
pub fn figures_proved() -> u32
    ensures count { result ≡ length the_figures }
    ensures stand { Stand the_figures }
{
    15
}
