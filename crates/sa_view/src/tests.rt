use crate::{View, broadcast, overlap};
use std::test::Fail;

/// A view of the array 0.
fn view(start: u32, count: u32, step: i32) -> View {
    View {
        array: 0,
        start,
        count,
        step,
    }
}

/// Start, count and step of a view, and a length that it fits or not.
static FITS: &[(u32, u32, i32, u32, bool)] = &[
    (3, 0, 1, 3, true),
    (4, 0, 1, 3, false),
    (0, 0, 0, 3, false),
    (0, 2, 0, 3, false),
    (0, 3, 1, 3, true),
    (1, 3, 1, 3, false),
    (0, 2, 2, 3, true),
    (0, 2, 3, 3, false),
    (2, 3, -1, 3, true),
    (2, 4, -1, 3, false),
    (3, 2, -1, 3, false),
    (0, 1, 1, 0, false),
    (u32::MAX - 1, 1, 1, u32::MAX, true),
    (u32::MAX, 1, 1, u32::MAX, false),
    (u32::MAX, 0, i32::MIN, u32::MAX, true),
    (u32::MAX - 1, 2, i32::MIN, u32::MAX, true),
    (u32::MAX - 1, 3, i32::MIN, u32::MAX, false),
    (0, u32::MAX, 1, u32::MAX, true),
    (u32::MAX, u32::MAX, i32::MAX, u32::MAX, false),
];

#[test]
fn fits_at_its_edges(rt: HostRuntime) -> Result<(), Fail> {
    for (start, count, step, len, fits) in FITS {
        assert_eq!(rt;
            view(*start, *count, *step).fits(*len),
            *fits,
            "{start}, {count}, {step} in {len}"
        );
    }
    Ok(())
}

/// Start, count and step of a view, and where a place of it is.
static PLACES: &[(u32, u32, i32, u32, u32)] = &[
    (5, 3, 2, 0, 5),
    (5, 3, 2, 2, 9),
    (5, 3, -2, 2, 1),
    (u32::MAX - 1, 2, i32::MIN, 1, 2_147_483_646),
    (0, u32::MAX, 1, u32::MAX - 1, u32::MAX - 1),
];

/// The place at `k`, where the view fits an array and has one.
fn place_of(v: View, k: u32) -> Option<u32> {
    if v.fits(u32::MAX) && k < v.count {
        Some(v.place(k))
    } else {
        None
    }
}

#[test]
fn a_place(rt: HostRuntime) -> Result<(), Fail> {
    for (start, count, step, k, place) in PLACES {
        let found = place_of(view(*start, *count, *step), *k);
        assert_eq!(rt; found, Some(*place), "{start}, {count}, {step} at {k}");
    }
    Ok(())
}

/// Start, count and step of a view, and which of the places 0 to 6 it names.
static NAMES: &[(u32, u32, i32, [bool; 7])] = &[
    (1, 3, 2, [false, true, false, true, false, true, false]),
    (5, 3, -2, [false, true, false, true, false, true, false]),
    (5, 2, -3, [false, false, true, false, false, true, false]),
    (2, 1, 4, [false, false, true, false, false, false, false]),
    (2, 0, 1, [false, false, false, false, false, false, false]),
];

#[test]
fn the_places_named(rt: HostRuntime) -> Result<(), Fail> {
    for (start, count, step, named) in NAMES {
        let v = view(*start, *count, *step);
        assert!(rt; v.fits(u32::MAX), "{start}, {count}, {step}");
        for place in 0..7u32 {
            assert_eq!(rt;
                v.names(place),
                named[place as usize],
                "{place} of {start}, {count}, {step}"
            );
        }
    }
    Ok(())
}

/// Two views by start, count and step, and whether they overlap in one array.
static OVERLAP: &[((u32, u32, i32), (u32, u32, i32), bool)] = &[
    ((0, 3, 2), (1, 3, 2), false),
    ((0, 3, 2), (4, 1, 1), true),
    ((5, 3, -2), (0, 2, 1), true),
    ((5, 3, -2), (0, 3, 2), false),
    ((0, 3, 1), (1, 0, 1), false),
    ((2, 0, 1), (0, 6, 1), false),
    ((0, 2, 6), (8, 2, -2), true),
];

#[test]
fn views_that_overlap(rt: HostRuntime) -> Result<(), Fail> {
    for ((start, count, step), (other_start, other_count, other_step), answer) in OVERLAP {
        let a = view(*start, *count, *step);
        let b = view(*other_start, *other_count, *other_step);
        assert!(rt; a.fits(u32::MAX), "{start}, {count}, {step}");
        assert!(rt;
            b.fits(u32::MAX),
            "{other_start}, {other_count}, {other_step}"
        );
        assert_eq!(rt; overlap(&a, &b), *answer, "{start} and {other_start}");
        assert_eq!(rt; overlap(&b, &a), *answer, "{other_start} and {start}");
        let elsewhere = View { array: 1, ..b };
        assert!(rt;
            !overlap(&a, &elsewhere),
            "{start} and {other_start} of another array"
        );
    }
    Ok(())
}

/// Counts, and their length.
static BROADCAST: &[(&[u32], Option<u32>)] = &[
    (&[], Some(1)),
    (&[1, 1], Some(1)),
    (&[0, 1], Some(0)),
    (&[1, 0], Some(0)),
    (&[3, 1, 3], Some(3)),
    (&[3, 1], Some(3)),
    (&[2, 3], None),
    (&[0, 2], None),
    (&[2, 1, 0], None),
];

#[test]
fn the_length_of_counts(rt: HostRuntime) -> Result<(), Fail> {
    for (counts, length) in BROADCAST {
        assert!(rt; broadcast(counts) == *length, "{counts:?}");
    }
    Ok(())
}

/// A length, the two bounds and the step of a slice, and its start and count.
type Slice = (u32, Option<i64>, Option<i64>, i32, u32, u32);

/// Slices of an array of length 3, and some with bounds or steps far outside.
static WORKED: &[Slice] = &[
    (3, None, None, -1, 2, 3),
    (3, Some(-2), None, 1, 1, 2),
    (3, None, Some(-1), 2, 0, 1),
    (3, Some(5), None, 1, 0, 0),
    (3, Some(5), None, 3, 0, 0),
    (4, Some(i64::MIN), Some(i64::MAX), 1, 0, 4),
    (4, Some(i64::MAX), Some(i64::MIN), -1, 3, 4),
    (4, Some(i64::MIN), Some(i64::MAX), -1, 0, 0),
    (4, Some(i64::MAX), None, -1, 3, 4),
    (4, None, Some(i64::MIN), i32::MIN, 3, 1),
    (4, None, Some(i64::MAX), i32::MAX, 0, 1),
    (8192, None, None, -3, 8191, 2731),
    (8192, Some(-8192), Some(8192), 8191, 0, 2),
];

#[test]
fn slices_worked(rt: HostRuntime) -> Result<(), Fail> {
    for (len, a, b, c, start, count) in WORKED {
        assert!(rt; *c != 0 && *len <= 8192, "{len}");
        let expected = View {
            array: 7,
            start: *start,
            count: *count,
            step: *c,
        };
        let slice = View::slice(7, *len, *a, *b, *c);
        assert_eq!(rt; slice, expected, "{len} by {c}");
        assert!(rt; slice.fits(*len), "{len} by {c}");
    }
    Ok(())
}

/// What `range(n)[a:b:c]` of Python 3 starts with, where it has an item, and how many it has.
static OF_PYTHON: &[Slice] = &[
    (0, None, None, 1, 0, 0),
    (0, Some(-2), None, 1, 0, 0),
    (0, None, Some(-1), 1, 0, 0),
    (0, Some(1), Some(-1), 1, 0, 0),
    (0, Some(3), Some(0), 1, 0, 0),
    (0, None, None, -1, 0, 0),
    (0, Some(-2), None, -1, 0, 0),
    (0, None, Some(-1), -1, 0, 0),
    (0, Some(1), Some(-1), -1, 0, 0),
    (0, Some(3), Some(0), -1, 0, 0),
    (0, None, None, 2, 0, 0),
    (0, Some(-2), None, 2, 0, 0),
    (0, None, Some(-1), 2, 0, 0),
    (0, Some(1), Some(-1), 2, 0, 0),
    (0, Some(3), Some(0), 2, 0, 0),
    (0, None, None, -3, 0, 0),
    (0, Some(-2), None, -3, 0, 0),
    (0, None, Some(-1), -3, 0, 0),
    (0, Some(1), Some(-1), -3, 0, 0),
    (0, Some(3), Some(0), -3, 0, 0),
    (1, None, None, 1, 0, 1),
    (1, Some(-2), None, 1, 0, 1),
    (1, None, Some(-1), 1, 0, 0),
    (1, Some(1), Some(-1), 1, 0, 0),
    (1, Some(3), Some(0), 1, 0, 0),
    (1, None, None, -1, 0, 1),
    (1, Some(-2), None, -1, 0, 0),
    (1, None, Some(-1), -1, 0, 0),
    (1, Some(1), Some(-1), -1, 0, 0),
    (1, Some(3), Some(0), -1, 0, 0),
    (1, None, None, 2, 0, 1),
    (1, Some(-2), None, 2, 0, 1),
    (1, None, Some(-1), 2, 0, 0),
    (1, Some(1), Some(-1), 2, 0, 0),
    (1, Some(3), Some(0), 2, 0, 0),
    (1, None, None, -3, 0, 1),
    (1, Some(-2), None, -3, 0, 0),
    (1, None, Some(-1), -3, 0, 0),
    (1, Some(1), Some(-1), -3, 0, 0),
    (1, Some(3), Some(0), -3, 0, 0),
    (2, None, None, 1, 0, 2),
    (2, Some(-2), None, 1, 0, 2),
    (2, None, Some(-1), 1, 0, 1),
    (2, Some(1), Some(-1), 1, 0, 0),
    (2, Some(3), Some(0), 1, 0, 0),
    (2, None, None, -1, 1, 2),
    (2, Some(-2), None, -1, 0, 1),
    (2, None, Some(-1), -1, 0, 0),
    (2, Some(1), Some(-1), -1, 0, 0),
    (2, Some(3), Some(0), -1, 1, 1),
    (2, None, None, 2, 0, 1),
    (2, Some(-2), None, 2, 0, 1),
    (2, None, Some(-1), 2, 0, 1),
    (2, Some(1), Some(-1), 2, 0, 0),
    (2, Some(3), Some(0), 2, 0, 0),
    (2, None, None, -3, 1, 1),
    (2, Some(-2), None, -3, 0, 1),
    (2, None, Some(-1), -3, 0, 0),
    (2, Some(1), Some(-1), -3, 0, 0),
    (2, Some(3), Some(0), -3, 1, 1),
    (3, None, None, 1, 0, 3),
    (3, Some(-2), None, 1, 1, 2),
    (3, None, Some(-1), 1, 0, 2),
    (3, Some(1), Some(-1), 1, 1, 1),
    (3, Some(3), Some(0), 1, 0, 0),
    (3, None, None, -1, 2, 3),
    (3, Some(-2), None, -1, 1, 2),
    (3, None, Some(-1), -1, 0, 0),
    (3, Some(1), Some(-1), -1, 0, 0),
    (3, Some(3), Some(0), -1, 2, 2),
    (3, None, None, 2, 0, 2),
    (3, Some(-2), None, 2, 1, 1),
    (3, None, Some(-1), 2, 0, 1),
    (3, Some(1), Some(-1), 2, 1, 1),
    (3, Some(3), Some(0), 2, 0, 0),
    (3, None, None, -3, 2, 1),
    (3, Some(-2), None, -3, 1, 1),
    (3, None, Some(-1), -3, 0, 0),
    (3, Some(1), Some(-1), -3, 0, 0),
    (3, Some(3), Some(0), -3, 2, 1),
    (4, None, None, 1, 0, 4),
    (4, Some(-2), None, 1, 2, 2),
    (4, None, Some(-1), 1, 0, 3),
    (4, Some(1), Some(-1), 1, 1, 2),
    (4, Some(3), Some(0), 1, 0, 0),
    (4, None, None, -1, 3, 4),
    (4, Some(-2), None, -1, 2, 3),
    (4, None, Some(-1), -1, 0, 0),
    (4, Some(1), Some(-1), -1, 0, 0),
    (4, Some(3), Some(0), -1, 3, 3),
    (4, None, None, 2, 0, 2),
    (4, Some(-2), None, 2, 2, 1),
    (4, None, Some(-1), 2, 0, 2),
    (4, Some(1), Some(-1), 2, 1, 1),
    (4, Some(3), Some(0), 2, 0, 0),
    (4, None, None, -3, 3, 2),
    (4, Some(-2), None, -3, 2, 1),
    (4, None, Some(-1), -3, 0, 0),
    (4, Some(1), Some(-1), -3, 0, 0),
    (4, Some(3), Some(0), -3, 3, 1),
];

#[test]
fn slices_are_those_of_python_ranges(rt: HostRuntime) -> Result<(), Fail> {
    for (len, a, b, c, start, count) in OF_PYTHON {
        assert!(rt; *c != 0 && *len <= 4, "{len}");
        let expected = View {
            array: 7,
            start: *start,
            count: *count,
            step: *c,
        };
        assert_eq!(rt; View::slice(7, *len, *a, *b, *c), expected, "{len} by {c}");
    }
    Ok(())
}
