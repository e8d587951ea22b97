ghost use Rattle.std.specs.Prelude.{◌≡◌, ◌+◌, ◌*◌, ◌≤◌, length};
ghost use Rattle.sa_text.specs.Texts.{most_bytes};
ghost use Rattle.sa_text.specs.Values.{value_weight, weight_of};

use crate::value::Value;

/// What each value weighs beside the bytes of its text.
const ITEM_WEIGHT: u64 = 16;

/// The weight of one value: 16, and the bytes of its text.
#[inline]
pub fn value_weight(value: &Value) -> u64
    ensures weight { result ≡ value_weight value.now }
    ensures most { result ≤ 16 + most_bytes }
{
    match value {
        Value::Missing => ITEM_WEIGHT,
        Value::Of(text) => ITEM_WEIGHT + text.size() as u64,
    }
}

/// The weight of the values: 16 for each, and the bytes of each text.
pub fn values_weight(values: &[Value]) -> u64
    requires { length values.now ≤ 8192 }
    ensures weight { result ≡ weight_of values.now }
    ensures most { result ≤ 65552 * length values.now }
{
    let mut weight = 0u64;
    for value in values {
        weight += value_weight(value);
    }
    weight
}
