ghost use Rattle.std.specs.Prelude.{◌≡◌};
ghost use Rattle.sa_view.specs.Broadcasts.{broadcast, joined};

/// The length of these counts: the one that is not 1, or 1. None where two counts that are not 1 differ.
pub fn broadcast(counts: &[u32]) -> Option<u32>
    ensures { result ≡ broadcast counts.now }
{
    let mut length = 1;
    for count in counts {
        let Some(next) = joined(length, *count) else {
            return None;
        };
        length = next;
    }
    Some(length)
}

/// The length of counts with this one, and one more count.
fn joined(length: u32, count: u32) -> Option<u32>
    ensures { result ≡ joined length count }
{
    if count == 1 || length == count {
        Some(length)
    } else if length == 1 {
        Some(count)
    } else {
        None
    }
}
