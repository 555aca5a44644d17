//! The unit columns: the weights of the places of a tag.
ghost use Rattle.bits.specs.Columns.{place, units as unit_columns};
ghost use Rattle.std.specs.Prelude.{◌≡◌};

// The place of a tag of `width` bits that weighs `number`, if one does.
pub fn unit_place(number: u64, width: u32) -> Option<u32>
    ensures { result ≡ place number (unit_columns width) }
{
    if !number.is_power_of_two() {
        return None;
    }
    width.checked_sub(number.trailing_zeros() + 1)
}
