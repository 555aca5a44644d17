//! The admitted keys of both families: admission, and what a key answers. What admission found stands in their type, so that
//! every value keeps the law.
ghost use Rattle.std.specs.Prelude.{◌≡◌, ◌++◌, ⊤};
ghost use Rattle.bits.specs.Columns.{units};
ghost use Rattle.family.specs.Admission.{admission_number, admission_questions};
ghost use Rattle.family.specs.Meaning.{AllDifferent, NoneZero};
ghost use Rattle.family.specs.Questions.{Asked};
ghost use Rattle.family.specs.declared.raw.Start.TheVariants.{Nonzero};
ghost use Rattle.lfsr.specs.KeyLaws.{register_lawful};

use crate::column::{Column, Evened, Plain};
use crate::digests;
use crate::register::Register;
use family::{AdmissionRefusal, Family, OutOfReach, RawKey, check_length, check_text};
use std::alloc::AllocError;
use std::marker::PhantomData;

// A key over a register, whose columns are made from the states as C tells.
#[derive(Drop)]
pub struct RegisterKey<C: Column> {
    pub(crate) register: Register,
    column: PhantomData<C>,
    ghost nonzero: { NoneZero ((C.meant register.raw).columns register.raw.reach ++ units (C.meant register.raw).width) },
    ghost different: { AllDifferent ((C.meant register.raw).columns register.raw.reach ++ units (C.meant register.raw).width) },
}

// Written out: a derive was tried, and takes no generic type whose ghost fields hold a fact. A clone is the key, and never fails.
impl<C: Column> Clone for RegisterKey<C> {
    ghost is_clone = { λ key copy. copy ≡ key };

    ghost is_infallible = { λ _. ⊤ };

    fn clone(&self) -> Result<Self, AllocError> {
        Ok(*self)
    }
}

impl<C: Column> Copy for RegisterKey<C> {}

// A Toeplitz key: as wide as its register.
pub type ToeplitzKey = RegisterKey<Plain>;

// A MAC-C key: one bit wider than its register.
pub type MacCKey = RegisterKey<Evened>;

impl<C: Column> RegisterKey<C> {
    // Admits a raw key, or refuses it by the first question that it fails.
    pub fn admit(raw: RawKey) -> Result<RegisterKey<C>, AdmissionRefusal>
        ensures { Asked (admission_questions Nonzero raw (C.meant raw)) admission_number (λ k. C.meant k.register.raw ≡ C.meant raw) result }
    {
        let register = Register::new(raw)?;
        if !C::differ(&register) {
            return Err(AdmissionRefusal::Columns);
        }
        Ok(RegisterKey {
            register,
            column: PhantomData,
        })
    }
}

impl<C: Column> Family for RegisterKey<C> {
    ghost meaning = { λ k. C.Column.meant k.register.raw };

    ghost lawful = { λ k. register_lawful C.Column.column C.Column.EXTRA C.Column.meant C.Column.laws k.register k.nonzero k.different };

    fn width(&self) -> u32 {
        self.register.raw.degree + C::EXTRA
    }

    fn reach(&self) -> u32 {
        self.register.raw.reach
    }

    fn distance(&self) -> u32 {
        3
    }

    // The ⊕ of columns is the column of the ⊕ of their states.
    fn digest(&self, text: &[u8], m: usize) -> Result<u64, OutOfReach> {
        check_text(self.register.raw.reach, m, text)?;
        Ok(C::column(digests::digest(&self.register, text, m)))
    }

    fn locate(&self, number: u64, m: usize) -> Result<Option<usize>, OutOfReach> {
        check_length(self.register.raw.reach, m)?;
        let Some(state) = C::state(number) else {
            return Ok(None);
        };
        Ok(self.register.find(state, m))
    }
}
