//! The shift register of both families.
ghost use Rattle.std.specs.Prelude.{◌≡◌, ◌%◌, ◌^◌, ◌<◌, ◌≤◌, [], ◌∷◌, ◌++◌, drop, Decides, ◌==◌};
ghost use Rattle.bits.specs.Bits.{bits_of};
ghost use Rattle.bits.specs.Columns.{place};
ghost use Rattle.family.specs.Admission.{admission_number, form_questions};
ghost use Rattle.family.specs.Meaning.{Separate, longest_reach};
ghost use Rattle.family.specs.Questions.{Asked};
ghost use Rattle.family.specs.Stepped.{left_of};
ghost use Rattle.family.specs.declared.raw.Start.TheVariants.{Nonzero};
ghost use Rattle.lfsr.specs.Keys.{states};
ghost use Rattle.lfsr.specs.Register.{AnyUnit, feedback as feedback_bit, mirrored, step};

use family::{AdmissionRefusal, Orbit, RawKey, Start, Step};

// A raw key whose numbers are in their ranges (those of this family: its state is not zero, as a generator's is, so that the two
// types say different things), with its coefficients laid along the register:
// `taps` has the coefficient of x^i where the state has s_i.
#[derive(Clone, Copy)]
pub struct Register {
    pub raw: RawKey,
    taps: u64,
    ghost formed: { (3 ≤ raw.degree) × (raw.degree ≤ 63) },
    ghost odd: { raw.coefficients % 2 ≡ 1 },
    ghost started: { (1 ≤ raw.state) × (raw.state < 2 ^ raw.degree) },
    ghost reached: { (1 ≤ raw.reach) × (raw.reach ≤ longest_reach) },
    ghost tapped: { taps ≡ mirrored raw.degree raw.coefficients },
}

impl Register {
    // Asks of the raw key's numbers whether they are in their ranges.
    pub fn new(raw: RawKey) -> Result<Register, AdmissionRefusal>
        ensures { Asked (form_questions Nonzero raw) admission_number (λ g. g.raw ≡ raw) result }
    {
        raw.check_form(Start::Nonzero)?;
        let taps = raw.coefficients.reverse_bits() >> (64 - raw.degree);
        Ok(Register { raw, taps })
    }

    // The state after one step: shifted, the oldest bit masked away, the feedback bit taken in.
    pub fn advance(&self, state: u64) -> u64
        ensures value { result ≡ step self.now.raw.degree self.now.raw.coefficients state }
        ensures within { result < 2 ^ self.now.raw.degree }
        ensures shifts { bits_of self.now.raw.degree result ≡ drop 1 (bits_of self.now.raw.degree state) ++ (feedback_bit self.now.raw.degree self.now.raw.coefficients state == 1) ∷ [] }
    {
        let mask = (1 << self.raw.degree) - 1;
        let feedback = (state & self.taps).count_ones() & 1;
        ((state << 1) & mask) | u64::from(feedback)
    }

    // So many states, from the first on.
    pub fn states(&self, count: usize) -> Orbit<'_, Register>
        ensures { left_of (λ (g : Register). step g.raw.degree g.raw.coefficients) result ≡ states self.now.raw count }
    {
        Orbit::new(self, self.raw.state, count)
    }

    // Whether the states up to the reach are all different and none zero. The step keeps different
    // states different, so a state that comes again is the first one: each is compared with it alone.
    pub fn keeps_apart(&self) -> bool
        ensures { Decides result (Separate (states self.now.raw self.now.raw.reach)) }
    {
        !self.states(self.raw.reach as usize).comes_again()
    }

    // Whether a state up to the reach is a unit column.
    pub fn meets_unit(&self) -> bool
        ensures { Decides result (AnyUnit (states self.now.raw self.now.raw.reach)) }
    {
        self.states(self.raw.reach as usize)
            .any(|state| state.count_ones() == 1)
    }

    // The first of m places whose state is the number.
    pub fn find(&self, number: u64, m: usize) -> Option<usize>
        ensures { result ≡ place number (states self.now.raw m) }
    {
        self.states(m).find_place(number)
    }
}

// `advance` says more than the trait's clause; an impl that says it itself was tried, and its proof didn't close.
impl Step for Register {
    ghost stepped = { λ g. step g.raw.degree g.raw.coefficients };

    fn step(&self, state: u64) -> u64 {
        self.advance(state)
    }
}
