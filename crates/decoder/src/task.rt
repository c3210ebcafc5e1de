// What a decoder is handed besides legs and measure.
ghost use Rattle.std.specs.Prelude.{◌≡◌, ℕ, ◌≤◌, true, length, pos, is_some, IfSome, slice_index_or};
ghost use Rattle.std.specs.List.{list_all};
ghost use Rattle.decoder.specs.Limits.{Within, most_coupling, most_target, within, in_limits};

// One period's task. The lower triangle of V stands row after row, without gaps; past the horizon nothing is read.
// Its arrays are as long as the longest horizon needs, so that nothing is allocated.
#[derive(Clone, Copy, PartialEq, Eq, Debug)]
pub struct Task {
    pub stages: u8,
    pub applied: [u8; 3],
    pub triangle: [i32; 120],
    pub target: [i32; 15],
    pub unconstrained: [i32; 15],
    pub remembered: Option<[u8; 15]>,
    ghost some: { 1 ≤ stages },
    ghost few: { stages ≤ 5 },
    ghost applied_long: { length applied ≡ 3 },
    ghost triangle_long: { length triangle ≡ 120 },
    ghost target_long: { length target ≡ 15 },
    ghost unconstrained_long: { length unconstrained ≡ 15 },
    ghost coupled: { (i : ℕ) → Within most_coupling (slice_index_or triangle i (pos 0)) },
    ghost aimed: { (i : ℕ) → Within most_target (slice_index_or target i (pos 0)) },
}

// Whether each number lies from -most to most.
fn all_within(xs: &[i32], most: u32) -> bool
    ensures is { result ≡ list_all (within most) xs.now }
    ensures each { result ≡ true → (i : ℕ) → Within most (slice_index_or xs.now i (pos 0)) }
{
    xs.iter().all(|x| x.unsigned_abs() <= most)
}

impl Task {
    // A task from its parts, where they keep the limits.
    pub fn new(
        stages: u8,
        applied: [u8; 3],
        triangle: [i32; 120],
        target: [i32; 15],
        unconstrained: [i32; 15],
        remembered: Option<[u8; 15]>,
    ) -> Option<Task>
        ensures taken { is_some result ≡ in_limits stages triangle target }
        ensures scalars { IfSome result (λ t. (t.stages ≡ stages) × (t.applied ≡ applied) × (t.remembered ≡ remembered)) }
        ensures rows { IfSome result (λ t. (t.triangle ≡ triangle) × (t.target ≡ target) × (t.unconstrained ≡ unconstrained)) }
    {
        if !(1..=5).contains(&stages) {
            return None;
        }
        if !all_within(&triangle, 1048576) || !all_within(&target, 129761280) {
            return None;
        }
        Some(Task {
            stages,
            applied,
            triangle,
            target,
            unconstrained,
            remembered,
        })
    }
}
