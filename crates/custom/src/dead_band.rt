// A measure of a user's own.
ghost use Rattle.custom.specs.DeadBand.{dead_band as dead_band_model};
ghost use Rattle.std.specs.Prelude.{◌+◌, ◌-◌, ◌%◌, ◌^◌, unsigned_abs, refl};
ghost use Rattle.std.specs.Cmp.{nat_cmp_total};
ghost use Rattle.legs.specs.Orders.{laws_where, number_le, same_number};
ghost use Rattle.custom.specs.DeadBandMeasureLemmas.{grows};
ghost use Rattle.std.proofs.Common.{rules};

use legs::measure::Measure;
use std::cmp::Ordering;

// The sum of what the differences exceed `width` by.
#[derive(Clone, Copy, PartialEq, Eq, Debug)]
pub struct DeadBand {
    pub width: u32,
}

impl Measure for DeadBand {
    type Cost = u32;

    ghost meaning = { λ measure. dead_band_model measure.width };

    ghost lawful = { λ measure. laws_where nat_cmp_total (dead_band_model measure.width) (λ a b _ _. refl) same_number (λ c d r small. number_le c ((c + (unsigned_abs d - measure.width)) % 2 ^ 32) (grows measure.width c d r small)) };

    ghost room = { Prim.search rules };

    fn start(&self) -> u32 {
        0
    }

    fn after(&self, cost: u32, difference: i64) -> u32 {
        let excess = difference
            .unsigned_abs()
            .saturating_sub(u64::from(self.width));
        cost.wrapping_add(excess as u32)
    }

    fn compare(&self, a: u32, b: u32) -> Ordering {
        a.cmp(&b)
    }
}
