//! Raw keys, as they are handed in, and the questions on their numbers that every family asks.
ghost use Rattle.family.specs.Admission.{admission_number, form_questions};
ghost use Rattle.family.specs.Questions.{Asked};

use crate::refusals::AdmissionRefusal;

// The longest text of any key, in bits.
pub const LONGEST_REACH: u32 = 1016;

// A key as it is handed in. Bit i of `coefficients` is the coefficient of x^i; the leading term
// x^degree is not in it. `reach` is the longest text that is wanted, in bits.
#[derive(Clone, Copy, Debug, PartialEq, Eq)]
pub struct RawKey {
    pub degree: u32,
    pub coefficients: u64,
    pub state: u64,
    pub reach: u32,
}

// The states that a family starts from: zero alone, or every state of `degree` bits but zero.
#[derive(Clone, Copy, Debug, PartialEq, Eq)]
pub enum Start {
    Zero,
    Nonzero,
}

impl RawKey {
    // Asks of each number in turn whether it is in its range; the first that is not is the refusal.
    pub fn check_form(&self, start: Start) -> Result<(), AdmissionRefusal>
        ensures { Asked (form_questions start self.now) admission_number (λ _. Unit {0}) result }
    {
        if self.degree < 3 || self.degree > 63 {
            return Err(AdmissionRefusal::Degree);
        }
        let bound = 1u64 << self.degree;
        if self.coefficients >= bound {
            return Err(AdmissionRefusal::Coefficients);
        }
        if self.coefficients % 2 == 0 {
            return Err(AdmissionRefusal::LowestCoefficient);
        }
        let fits = match start {
            Start::Zero => self.state == 0,
            Start::Nonzero => self.state > 0 && self.state < bound,
        };
        if !fits {
            return Err(AdmissionRefusal::State);
        }
        if self.reach < 1 || self.reach > LONGEST_REACH {
            return Err(AdmissionRefusal::Reach);
        }
        Ok(())
    }
}
