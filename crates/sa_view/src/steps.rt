ghost use Rattle.std.specs.Prelude.{ℕ, ◌≡◌, ◌<◌, ◌≤◌, ◌+◌, ◌*◌, ◌==◌};
ghost use Rattle.std.specs.List.{list_any, range_with_len};
ghost use Rattle.sa_view.specs.Slices.{count_up};

/// How many of `low`, `low + stride` and so on are below `high`.
pub fn steps_below(low: u32, high: u32, stride: u32) -> u32
    requires { 0 < stride }
    ensures { (n : ℕ) → high ≤ n → result ≡ count_up n low high stride }
{
    if low < high {
        (high - low - 1) / stride + 1
    } else {
        0
    }
}

/// Whether `high` is one of so many of `low`, `low + stride` and so on.
pub fn reaches(low: u32, high: u32, stride: u32, count: u32) -> bool
    requires { 0 < stride }
    ensures { result ≡ list_any (λ k. low + k * stride == high) (range_with_len 0 count) }
{
    if high < low {
        return false;
    }
    let far = high - low;
    far % stride == 0 && far / stride < count
}
