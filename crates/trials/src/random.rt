// Numbers that look random and are the same in every run.

#[derive(Clone, Copy)]
pub(crate) struct Random {
    state: u64,
}

impl Random {
    pub(crate) fn new(seed: u64) -> Random {
        Random { state: seed }
    }

    // A number below n, and 0 where there is none.
    pub(crate) fn below<T: Into<u64> + TryFrom<u64> + Default + Drop>(&mut self, n: T) -> T
    where
        T::Error: Drop,
    {
        self.state = self
            .state
            .wrapping_mul(6_364_136_223_846_793_005)
            .wrapping_add(1_442_695_040_888_963_407);
        let drawn = (self.state >> 33).checked_rem(n.into()).unwrap_or(0);
        T::try_from(drawn).unwrap_or_default()
    }

    // Once in n times.
    pub(crate) fn once_in(&mut self, n: u64) -> bool {
        self.below(n) == 0
    }

    // A number from -most to most.
    pub(crate) fn within(&mut self, most: i32) -> i32 {
        let width = u64::from(most.unsigned_abs())
            .saturating_mul(2)
            .saturating_add(1);
        let above = i64::try_from(self.below(width)).unwrap_or(0);
        i32::try_from(above.saturating_sub(i64::from(most))).unwrap_or(0)
    }

    // A multiple of `step`, from -`times` to `times` of it.
    pub(crate) fn multiple(&mut self, step: i32, times: i32) -> i32 {
        self.within(times).saturating_mul(step)
    }
}
