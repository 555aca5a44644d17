//! Theorems on frames. Each stands on a function's contract, so that its proof is asked for.
ghost use Rattle.frames.specs.Changed.{FramesShow, PadsAreFirstBits, PadsArePads};

// What a frame with so many changed bits shows.
#[tactic(auto, using(crate::proofs::Copying::frames_show))]
pub fn frames_show()
    ensures { FramesShow }
{}

// The pad of a frame is the pad of the width, for every word of 64 bits, and has its first bits.
#[tactic(auto, using(crate::proofs::Shifts::pads_are_pads, crate::proofs::Shifts::pads_are_first_bits))]
pub fn pads_are_pads()
    ensures pads { PadsArePads }
    ensures bits { PadsAreFirstBits }
{}
