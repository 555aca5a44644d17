//! What admission, digest and locate refuse with.
ghost use Rattle.family.specs.Admission.{admission_number, reach_number};
ghost use Rattle.std.specs.Prelude.{◌≡◌};

use thiserror::Error;

// What is wrong with a raw key: the first of its numbers that is out of its range, or its columns.
#[derive(Clone, Copy, Debug, PartialEq, Eq, Error)]
pub enum AdmissionRefusal {
    #[error("the degree is not 3 to 63")]
    Degree,
    #[error("the coefficient number is 2^degree or more")]
    Coefficients,
    #[error("the coefficient of x^0 is zero")]
    LowestCoefficient,
    #[error("the state does not fit the family")]
    State,
    #[error("the wanted reach is not 1 to 1016")]
    Reach,
    #[error("two of the columns and unit columns are equal, or one is zero")]
    Columns,
}

// Each refusal has a `number` of its own, here and in the crates above: a trait would leave every table, and ask every caller for
// an import.
impl AdmissionRefusal {
    pub fn number(&self) -> u32
        ensures { result ≡ admission_number self.now }
    {
        match self {
            AdmissionRefusal::Degree => 1,
            AdmissionRefusal::Coefficients => 2,
            AdmissionRefusal::LowestCoefficient => 3,
            AdmissionRefusal::State => 4,
            AdmissionRefusal::Reach => 5,
            AdmissionRefusal::Columns => 6,
        }
    }
}

// A digest or a search was asked for a text length that is not 1 to the reach, or that the bytes do
// not hold.
#[derive(Clone, Copy, Debug, PartialEq, Eq, Error)]
#[error("the text length is not 1 to the reach, or the bytes do not hold it")]
pub struct OutOfReach;

impl OutOfReach {
    pub fn number(&self) -> u32
        ensures { result ≡ reach_number self.now }
    {
        8
    }
}
