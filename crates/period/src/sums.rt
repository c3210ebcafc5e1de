// Sums of products, and how they are rounded.
ghost use Rattle.std.specs.Prelude.{◌≡◌, ℕ, ◌+◌, ◌-◌, ◌*◌, ◌^◌, ◌<◌, ◌≤◌, length, ℤ, pos, ◌+ℤ◌, ◌*ℤ◌, slice_index_or};
ghost use Rattle.period.specs.Sums.{RoundingRows, Within, rounded as rounded_sum, sum_to};

// How many counts make a unit.
const UNIT: i64 = 4096;

// From this remainder on a sum is rounded up.
const HALF: i64 = 2048;

// A sum of products of counts, in counts.
pub fn rounded(sum: i64) -> i64
    ensures value { result ≡ rounded_sum sum }
    ensures rows { RoundingRows }
{
    let whole = sum.div_euclid(UNIT);
    if sum.rem_euclid(UNIT) < HALF {
        whole
    } else {
        whole + 1
    }
}

// A sum with one product more, of a table's entry and a number.
pub(crate) fn add_product(sum: i64, entry: i32, x: i32) -> i64
    requires room { Within (2 ^ 62 - 2 ^ 51) sum }
    requires limited { Within (2 ^ 20) entry }
    ensures value { result ≡ sum +ℤ entry *ℤ x }
    ensures bound { (m : ℕ) → Within m sum → Within (m + 2 ^ 51) result }
{
    sum + i64::from(entry) * i64::from(x)
}

// The sum of the products of a table's row with the first numbers of a list, rounded. The numbers are small enough that it has 32 bits.
pub(crate) fn rounded_dot(row: &[i32], xs: &[i32]) -> i32
    requires few { length row.now ≤ 15 }
    requires enough { length row.now ≤ length xs.now }
    requires limited { (k : ℕ) → k < length row.now → Within (2 ^ 20) (slice_index_or row.now k (pos 0)) }
    requires small { (k : ℕ) → k < length row.now → Within 540672 (slice_index_or xs.now k (pos 0)) }
    ensures { result ≡ rounded_sum (sum_to (length row.now) (λ k. slice_index_or row.now k (pos 0) *ℤ slice_index_or xs.now k (pos 0))) }
{
    // a `for`, since the library bounds no partial sum of a `sum` of signed numbers; the sum over a column has one of its own, since
    // pairs from a parameter would stand in the contract as an iterator's items
    let mut sum = 0;
    for (entry, x) in row.iter().zip(xs) {
        sum = add_product(sum, *entry, *x);
    }
    rounded(sum) as i32
}
