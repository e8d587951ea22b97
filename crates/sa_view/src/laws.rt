ghost use Rattle.sa_view.specs.Laws.{FitsMore, PlacesArePlaces, PutIsRead, SliceFits, SlicesWorked};

/// The places of a view that fits an array are as many as its count, distinct, and places of the array:
/// its clause is the law.
pub fn places_are_places()
    ensures { PlacesArePlaces }
{}

/// A view that fits an array fits each longer one: its clause is the law.
pub fn fits_more()
    ensures { FitsMore }
{}

/// What is put at distinct places is read there, and nothing else changes: its clause is the law.
pub fn put_is_read()
    ensures { PutIsRead }
{}

/// A slice of an array fits it, and these slices are those of Python: its clauses are the laws.
pub fn slice_fits()
    ensures fits { SliceFits }
    ensures worked { SlicesWorked }
{}
