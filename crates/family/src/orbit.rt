//! Numbers that are made one from another.
ghost use Rattle.bits.specs.Columns.{place};
ghost use Rattle.family.specs.Orbits.{orbit};
ghost use Rattle.family.specs.Stepped.{FirstAgain, left_of};
ghost use Rattle.std.specs.Iterator.{YieldsFirst, item_count};
ghost use Rattle.std.specs.Prelude.{◌≡◌, ℕ, Decides};

// What makes the next number from one.
pub trait Step {
    ghost stepped: { Self → ℕ → ℕ };

    fn step(&self, number: u64) -> u64
        ensures { result ≡ stepped self.now number };
}

// So many numbers, each made from the one before it. A type of its own, since a function cannot hand out a closure's iterator.
#[derive(Drop)]
pub struct Orbit<'a, S> {
    maker: &'a S,
    next: u64,
    left: usize,
}

impl<'a, S: Step> Orbit<'a, S> {
    // From this number on.
    pub fn new(maker: &'a S, first: u64, count: usize) -> Orbit<'a, S>
        ensures { left_of S.stepped result ≡ orbit (S.stepped maker.now) count first }
    {
        Orbit {
            maker,
            next: first,
            left: count,
        }
    }

    // The first place that has this number.
    pub fn find_place(mut self, number: u64) -> Option<usize>
        ensures { result ≡ place number (left_of S.stepped self.entry) }
    {
        self.position(|candidate| candidate == number)
    }

    // Whether a number after the first is the first again.
    pub fn comes_again(mut self) -> bool
        ensures { Decides result (FirstAgain (left_of S.stepped self.entry)) }
    {
        let Some(first) = self.next() else {
            return false;
        };
        self.any(|number| number == first)
    }
}

impl<S: Step> Iterator for Orbit<'_, S> {
    type Item = u64;

    ghost next_gives = { YieldsFirst (left_of S.Step.stepped) };

    ghost remaining = { item_count (left_of S.Step.stepped) };

    fn next(&mut self) -> Option<u64> {
        self.left = self.left.checked_sub(1)?;
        let number = self.next;
        self.next = self.maker.step(number);
        Some(number)
    }
}
