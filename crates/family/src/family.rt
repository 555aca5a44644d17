//! A key family: what its keys mean, and what each of them answers.
ghost use Rattle.bits.specs.Columns.{place};
ghost use Rattle.family.specs.Admission.{length_questions, reach_number, text_questions};
ghost use Rattle.family.specs.Meaning.{Lawful, Meaning, digest_of};
ghost use Rattle.family.specs.Questions.{Asked};
ghost use Rattle.std.specs.Prelude.{◌≡◌};

use crate::refusals::OutOfReach;

// A value of a family is one admitted key. A new family shows its meaning, the law, and these answers;
// all that is built on families then takes it without a new proof.
pub trait Family {
    // width, reach, distance and columns of the key
    ghost meaning: { Self → Meaning };

    // How many bits a tag has.
    fn width(&self) -> u32
        ensures { result ≡ (meaning self.now).width };

    // How many bits a text may have.
    fn reach(&self) -> u32
        ensures { result ≡ (meaning self.now).reach };

    // The code distance: fewer changed bits than this are never taken for no change at all.
    fn distance(&self) -> u32
        ensures { result ≡ (meaning self.now).distance };

    // The digest of the first m bits of a text: the ⊕ of the columns at which it has a one. Text and m stay two parameters: a type
    // that ties them would ask of callers what is refused here.
    fn digest(&self, text: &[u8], m: usize) -> Result<u64, OutOfReach>
        ensures { Asked (text_questions (meaning self.now).reach m text.now) reach_number (λ d. d ≡ digest_of (meaning self.now) m text.now) result };

    // The place, in a text of m bits, whose column is the number.
    fn locate(&self, number: u64, m: usize) -> Result<Option<usize>, OutOfReach>
        ensures { Asked (length_questions (meaning self.now).reach m) reach_number (λ p. p ≡ place number ((meaning self.now).columns m)) result };

    // every value that can exist keeps the law
    ghost lawful: { (k : Self) → Lawful (meaning k) };
}
