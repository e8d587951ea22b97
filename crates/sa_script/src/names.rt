ghost use Rattle.std.specs.Prelude.{◌≡◌, ◌∷◌, ◌++◌, [], option_map, slice_get, OnOk, string_bytes, position};
ghost use Rattle.std.specs.Str.{bytes_eq};
ghost use Rattle.sa_script.specs.Contexts.{number_in, is_known};

use crate::name::Name;
use sa_base::Memory;
use std::alloc::Global;
use std::marker::Model;

/// The names of descriptors and of arrays, each by its number.
#[derive(Debug, Drop)]
pub struct Names {
    descrs: Vec<String>,
    arrays: Vec<String>,
}

impl Model for Names {
    ghost use Rattle.std.specs.Prelude.{map, string_bytes};
    ghost use Rattle.sa_script.specs.Names.{Known};

    ghost Value = { Known };

    ghost view = { λ n. record { descrs = map string_bytes n.descrs.items; arrays = map string_bytes n.arrays.items } };
}

impl Names {
    /// No names. It takes no memory.
    pub(crate) fn new(alloc: Global) -> Names
        ensures { result ≡ record { descrs = []; arrays = [] } }
    {
        Names {
            descrs: Vec::new(alloc),
            arrays: Vec::new(alloc),
        }
    }

    /// The name of a descriptor, by its number.
    pub fn descr(&self, k: u8) -> Option<&str>
        ensures { option_map (λ n. n.now) result ≡ slice_get self.now.descrs k }
    {
        self.descrs.get(usize::from(k)).map(|name| name.as_str())
    }

    /// The name of an array, by its number.
    pub fn array(&self, k: u32) -> Option<&str>
        ensures { option_map (λ n. n.now) result ≡ slice_get self.now.arrays k }
    {
        self.arrays.get(k as usize).map(|name| name.as_str())
    }

    /// The number of the descriptor of this name.
    pub(crate) fn descr_number(&self, name: &Name<'_>) -> Option<usize>
        ensures { result ≡ number_in self.now.descrs name.now }
    {
        number_in(self.descrs.as_slice(), name.as_str())
    }

    /// The number of the array of this name.
    pub(crate) fn array_number(&self, name: &Name<'_>) -> Option<usize>
        ensures { result ≡ number_in self.now.arrays name.now }
    {
        number_in(self.arrays.as_slice(), name.as_str())
    }

    /// Whether a descriptor or an array of this name is declared.
    pub(crate) fn is_known(&self, name: &Name<'_>) -> bool
        ensures { result ≡ is_known self.now name.now }
    {
        self.descr_number(name).is_some() || self.array_number(name).is_some()
    }

    /// Names one more descriptor.
    pub(crate) fn add_descr(&mut self, alloc: Global, name: &Name<'_>) -> Result<(), Memory>
        ensures { OnOk result (self.new ≡ record { descrs = self.old.descrs ++ name.now ∷ []; arrays = self.old.arrays }) }
    {
        self.descrs.push(String::from_str(alloc, name.as_str())?)?;
        Ok(())
    }

    /// Names one more array.
    pub(crate) fn add_array(&mut self, alloc: Global, name: &Name<'_>) -> Result<(), Memory>
        ensures { OnOk result (self.new ≡ record { descrs = self.old.descrs; arrays = self.old.arrays ++ name.now ∷ [] }) }
    {
        self.arrays.push(String::from_str(alloc, name.as_str())?)?;
        Ok(())
    }
}

/// The place of a name among these.
fn number_in(names: &[String], name: &str) -> Option<usize>
    ensures { result ≡ position (λ n. bytes_eq (string_bytes n) name.now) names.now }
{
    names.iter().position(|n| n.as_str() == name)
}
