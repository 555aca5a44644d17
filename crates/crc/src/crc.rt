//! The CRC family: admission, and what an admitted key answers.
ghost use Rattle.std.specs.Prelude.{◌≡◌, ◌≤◌};
ghost use Rattle.bits.specs.Columns.{place};
ghost use Rattle.crc.specs.Admitted.{crc_key};
ghost use Rattle.crc.specs.Crc.{crc, crc_questions};
ghost use Rattle.crc.specs.CrcLaw.{crc_lawful};
ghost use Rattle.crc.specs.Powers.{PowersAreRemainders, crc_columns};
ghost use Rattle.family.specs.Admission.{admission_number};
ghost use Rattle.family.specs.Questions.{Asked};

use crate::keys::{CrcKey, Generator};
use family::{
    AdmissionRefusal, Family, Orbit, OutOfReach, RawKey, Start, check_length, check_text,
};

impl CrcKey {
    // Admits a raw key, or refuses it by the first question that it fails. Its columns are remainders
    // of powers of x, as they are called.
    pub fn admit(raw: RawKey) -> Result<CrcKey, AdmissionRefusal>
        ensures asked { Asked (crc_questions raw) admission_number (λ k. crc_key k ≡ crc raw) result }
        ensures remainders { PowersAreRemainders }
    {
        raw.check_form(Start::Zero)?;
        let generator = Generator { raw };
        if !generator.keeps_apart() {
            return Err(AdmissionRefusal::Columns);
        }
        Ok(CrcKey { generator })
    }

    // The place of a number among the columns at m. The last column is x^degree mod g, which is the
    // rest of g, and each one before it is x times the next.
    fn place_of(&self, number: u64, m: usize) -> Option<usize>
        requires { m ≤ self.now.generator.raw.reach }
        ensures { result ≡ place number (crc_columns self.now.generator.raw.degree self.now.generator.raw.coefficients m) }
    {
        let last = self.generator.raw.coefficients;
        let back = Orbit::new(&self.generator, last, m).find_place(number)?;
        Some(m - 1 - back)
    }
}

impl Family for CrcKey {
    ghost meaning = { crc_key };

    ghost lawful = { crc_lawful };

    fn width(&self) -> u32 {
        self.generator.raw.degree
    }

    fn reach(&self) -> u32 {
        self.generator.raw.reach
    }

    // 4 if g, its leading term included, has an even number of terms, and 3 otherwise.
    fn distance(&self) -> u32 {
        if (self.generator.raw.coefficients.count_ones() + 1) % 2 == 0 {
            4
        } else {
            3
        }
    }

    fn digest(&self, text: &[u8], m: usize) -> Result<u64, OutOfReach> {
        check_text(self.generator.raw.reach, m, text)?;
        Ok(self.generator.digest(text, m))
    }

    fn locate(&self, number: u64, m: usize) -> Result<Option<usize>, OutOfReach> {
        check_length(self.generator.raw.reach, m)?;
        Ok(self.place_of(number, m))
    }
}
