ghost use Rattle.std.specs.Prelude.{◌≡◌, ◌≤◌};
ghost use Rattle.sa_view.specs.Slices.{bound_up, bound_down};

/// A bound of a slice that goes up, in an array of this length.
pub fn bound_up(len: u32, without: u32, bound: Option<i64>) -> u32
    requires { without ≤ len }
    ensures value { result ≡ bound_up len without bound }
    ensures within { result ≤ len }
{
    match bound {
        None => without,
        Some(bound) if bound < 0 => u64::from(len).saturating_sub(bound.unsigned_abs()) as u32,
        Some(bound) => u64::from(len).min(bound as u64) as u32,
    }
}

/// One more than a bound of a slice that goes down, so that the place before the first is 0.
pub fn bound_down(len: u32, without: u32, bound: Option<i64>) -> u32
    requires { without ≤ len }
    ensures value { result ≡ bound_down len without bound }
    ensures within { result ≤ len }
{
    match bound {
        None => without,
        Some(bound) if bound < 0 => u64::from(len).saturating_sub(bound.unsigned_abs() - 1) as u32,
        Some(bound) => u64::from(len).min(bound as u64 + 1) as u32,
    }
}
