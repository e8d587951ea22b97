ghost use Rattle.std.specs.Prelude.{◌≡◌};
ghost use Rattle.sa_call.specs.Decls.{IsDeclared, is_strings};

use sa_descr::Descr;
use sa_plain::PlainKind;
use std::marker::Model;

/// What the items of an array are.
#[derive(Clone, Copy, Debug, PartialEq, Eq)]
pub enum Kind {
    /// Values: texts, and missing ones where the descriptor's rule allows them.
    Str,
    /// Numbers, flags, or texts of a fixed width.
    Plain(PlainKind),
}

impl Kind {
    /// Whether it is that of a strings array.
    pub fn is_strings(self) -> bool
        ensures { result ≡ is_strings self }
    {
        match self {
            Kind::Str => true,
            Kind::Plain(_) => false,
        }
    }
}

/// A declared array: the number of its home descriptor, its kind and its length.
#[derive(Clone, Copy, Debug, PartialEq, Eq)]
pub struct ArrayDecl {
    pub home: u8,
    pub kind: Kind,
    pub len: u32,
}

/// The declared descriptors and arrays, each numbered from 0 in order of declaration. Each array's
/// home is one of the descriptors; there are at most 8 descriptors and 64 arrays, and the arrays of
/// one descriptor have at most 8,192 entries together, and a width is from 1 to 256.
#[derive(Debug, Drop)]
pub struct Decls {
    descrs: Vec<Descr>,
    arrays: Vec<ArrayDecl>,
}

impl Model for Decls {
    ghost use Rattle.sa_call.specs.Decls.{Declared, IsDeclared};

    ghost Value = { Declared };

    ghost view = { λ d. record { descrs = d.descrs.items; arrays = d.arrays.items } };

    ghost invariant = { λ d. IsDeclared (record { descrs = d.descrs.items; arrays = d.arrays.items }) };
}

impl Decls {
    /// These descriptors and arrays. It takes no memory.
    pub fn new(descrs: Vec<Descr>, arrays: Vec<ArrayDecl>) -> Decls
        requires { IsDeclared (record { descrs = descrs.items; arrays = arrays.items }) }
        ensures { result ≡ record { descrs = descrs.items; arrays = arrays.items } }
    {
        Decls { descrs, arrays }
    }

    /// The descriptors, in order of declaration.
    pub fn descrs(&self) -> &[Descr]
        ensures { result.now ≡ self.now.descrs }
    {
        self.descrs.as_slice()
    }

    /// The arrays, in order of declaration.
    pub fn arrays(&self) -> &[ArrayDecl]
        ensures arrays { result.now ≡ self.now.arrays }
        ensures declared { IsDeclared self.now }
    {
        self.arrays.as_slice()
    }

    /// The limits hold and each home is declared: its clause says so, and it does nothing.
    pub(crate) fn limits_hold(&self)
        ensures { IsDeclared self.now }
    {
        let _ = &self.descrs;
    }
}
