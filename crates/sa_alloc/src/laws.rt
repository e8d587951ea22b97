ghost use Rattle.sa_alloc.specs.Laws.{PutsKeepSound, PutsKeepShape, PutsSetOneValue, TidiesKeepValues};

/// The opening layout names each live extent by exactly one entry, and each put keeps it so: its
/// clause is the law.
pub fn puts_keep_sound()
    ensures { PutsKeepSound }
{}

/// A put leaves the lengths of the arrays and the number of entries: its clause is the law.
pub fn puts_keep_shape()
    ensures { PutsKeepShape }
{}

/// A put changes the value of its entry, and no other: its clause is the law.
pub fn puts_set_one_value()
    ensures { PutsSetOneValue }
{}

/// A tidy changes no value, and no length of an array: its clause is the law.
pub fn tidies_keep_values()
    ensures { TidiesKeepValues }
{}
