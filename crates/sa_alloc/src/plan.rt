ghost use Rattle.std.specs.Prelude.{◌≡◌};

use sa_text::Value;
use std::marker::Model;

/// Values for places of an array, with all memory that their writing needs taken. Contracts see the
/// array, and the places with their values; it owns copies of the values.
#[derive(Drop)]
pub struct Plan {
    array: u32,
    puts: Vec<(u32, Value)>,
}

impl Model for Plan {
    ghost use Rattle.sa_alloc.specs.PlanValues.{PlanValue};

    ghost Value = { PlanValue };

    ghost view = { λ p. record { array = p.array; puts = p.puts.items } };
}

impl Plan {
    /// The plan of an array's puts.
    pub(crate) fn new(array: u32, puts: Vec<(u32, Value)>) -> Plan
        ensures { result ≡ record { array = array; puts = puts.items } }
    {
        Plan { array, puts }
    }

    /// The array, and the places with their values.
    pub(crate) fn into_parts(self) -> (u32, Vec<(u32, Value)>)
        ensures array { result.0 ≡ self.array }
        ensures puts { result.1.items ≡ self.puts }
    {
        (self.array, self.puts)
    }
}
