ghost use Rattle.std.specs.Prelude.{◌≡◌, ◌<◌, length, slice_index_or};
ghost use Rattle.sa_text.specs.Values.{stretched};
ghost use Rattle.sa_text.specs.declared.value.Value.TheVariants.{Missing};

use crate::value::Value;

/// How many values a list has where it is stretched to a count.
#[inline]
pub fn stretched_len(count: usize, values: &[Value]) -> usize
    ensures { result ≡ length (stretched count values.now) }
{
    match values {
        [_] => count,
        _ => values.len(),
    }
}

/// A value of a list that is stretched to a count, lent.
#[inline]
pub fn stretched_at(count: usize, values: &[Value], k: usize) -> &Value
    requires { k < length (stretched count values.now) }
    ensures { result.now ≡ slice_index_or (stretched count values.now) k Missing }
{
    match values {
        [only] => only,
        _ => &values[k],
    }
}
