//! What every family asks of the text lengths that are handed to it.
ghost use Rattle.family.specs.Admission.{length_questions, reach_number, text_questions};
ghost use Rattle.family.specs.Questions.{Asked};

use crate::refusals::OutOfReach;

// Is m from 1 to the reach? (`as usize`, here and in the crates above: std has no
// `From` between the two types.)
pub fn check_length(reach: u32, m: usize) -> Result<(), OutOfReach>
    ensures { Asked (length_questions reach m) reach_number (λ _. Unit {0}) result }
{
    if m < 1 || m > reach as usize {
        return Err(OutOfReach);
    }
    Ok(())
}

// Is m from 1 to the reach, and do the bytes hold m bits?
pub fn check_text(reach: u32, m: usize, text: &[u8]) -> Result<(), OutOfReach>
    ensures { Asked (text_questions reach m text.now) reach_number (λ _. Unit {0}) result }
{
    check_length(reach, m)?;
    if (m + 7) / 8 > text.len() {
        return Err(OutOfReach);
    }
    Ok(())
}
