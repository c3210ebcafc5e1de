// Numbers by rows, in arrays that have room for the longest horizon.
ghost use Rattle.std.specs.Prelude.{◌≡◌, ℕ, ◌<◌, ◌≤◌, length, pos, slice_index_or};
ghost use Rattle.period.specs.Sums.{EachWithin};

// Numbers of which none is larger than a bound, in either direction.
#[derive(Drop)]
pub(crate) struct Rows<const N: usize, const MOST: u32> {
    pub(crate) values: [i32; N],
    ghost within: { EachWithin MOST values },
}

// By how much the currents would miss each reference.
pub(crate) type Errors = Rows<10, 40960>;

// Θ, the linear part of the cost.
pub(crate) type Thetas = Rows<15, 540672>;

// The levels of the applied positions.
pub(crate) type Levels = Rows<3, 2>;

// The numbers of the first rows, and 0 past them.
pub(crate) fn first_rows<const N: usize, F: Fn(usize) -> i32>(rows: usize, number: F) -> [i32; N]
    requires small { N ≤ 15 }
    requires room { rows ≤ N }
    requires callable { (k : ℕ) → k < rows → F.pre number k }
    ensures sized { length result ≡ N }
    ensures value { (k : ℕ) → k < rows → F.post number k (slice_index_or result k (pos 0)) }
    ensures rest { (k : ℕ) → rows ≤ k → slice_index_or result k (pos 0) ≡ pos 0 }
{
    let mut numbers = [0; N];
    for (k, place) in numbers[..rows].iter_mut().enumerate() {
        *place = number(k);
    }
    numbers
}
