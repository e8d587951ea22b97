ghost use Rattle.std.specs.Prelude.{◌≡◌, IfOk};
ghost use Rattle.sa_text.specs.Values.{is_missing};

use crate::text::Text;
use sa_base::Memory;
use std::alloc::Global;
use std::mem::size_of;

const _: () = prove!(size_of::<Value>() == 24);

/// A value of a strings array: missing, or a text.
#[derive(Debug, Drop)]
pub enum Value {
    Missing,
    Of(Text),
}

impl Value {
    /// The same value once more, as `Text::copy` gives it.
    #[inline]
    pub fn copy(&self, alloc: Global) -> Result<Value, Memory>
        ensures { IfOk result (λ v. v ≡ self.now) }
    {
        match self {
            Value::Missing => Ok(Value::Missing),
            Value::Of(text) => Ok(Value::Of(text.copy(alloc)?)),
        }
    }

    /// Whether the value is missing.
    #[inline]
    pub fn is_missing(&self) -> bool
        ensures { result ≡ is_missing self.now }
    {
        matches!(self, Value::Missing)
    }
}
