//! The vectors of RFC 8439 as a theorem.
ghost use Rattle.chacha20.specs.Vectors.{vectors, Holds};
ghost use Rattle.std.specs.List.{AllByRecursion};
ghost use Rattle.std.specs.Prelude.{◌≡◌, length};

// How many of the RFC's vectors are listed; its contract is that the definitions of the block meet every one of them.
pub fn vectors_hold() -> usize
    ensures count { result ≡ length vectors }
    ensures hold { AllByRecursion Holds vectors }
{
    8
}
