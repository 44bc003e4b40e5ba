// Masks of slots: bit d stands for slot d. Slots from 64 on are in no mask, and none can be put into one.
ghost use Rattle.std.specs.Prelude.{◌≡◌, cond, ◌^◌, ltb};
ghost use Rattle.std.specs.Int.Count.{ones};
ghost use Rattle.disk.specs.Limits.{mask_bits};
ghost use Rattle.disk.specs.Mask.{in_mask, with_slot, without_slot};

use crate::limits::MASK_BITS;

// Whether slot d is in the mask.
pub fn has(mask: u64, d: usize) -> bool
    ensures { result ≡ in_mask mask d }
{
    d < MASK_BITS && (mask >> d) % 2 == 1
}

// The mask with slot d in it.
pub fn with_slot(mask: u64, d: usize) -> u64
    ensures { result ≡ cond (ltb d mask_bits) (with_slot mask d) mask }
{
    if MASK_BITS <= d {
        return mask;
    }
    if has(mask, d) {
        return mask;
    }
    mask + (1 << d)
}

// The mask without slot d.
pub fn without_slot(mask: u64, d: usize) -> u64
    ensures { result ≡ without_slot mask d }
{
    if MASK_BITS <= d {
        return mask;
    }
    if has(mask, d) {
        return mask - (1 << d);
    }
    mask
}

// How many slots are in the mask.
pub fn count(mask: u64) -> u32
    ensures { result ≡ ones mask }
{
    mask.count_ones()
}

// Whether all slots of the mask are below n.
pub fn all_below(mask: u64, n: usize) -> bool
    ensures { result ≡ ltb mask (2 ^ n) }
{
    MASK_BITS <= n || mask < (1 << n)
}
