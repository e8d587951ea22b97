ghost use Rattle.std.specs.Prelude.{◌≡◌, ◌<◌, ◌≤◌, ◌≢◌, true, pos};
ghost use Rattle.sa_view.specs.Slices.{slice_of, slice_view};
ghost use Rattle.sa_view.specs.Views.{at_step, fits, fits_some, is_within, place_at, names, overlap};

use crate::bounds::{bound_down, bound_up};
use crate::steps::{reaches, steps_below};

/// The places `start + k * step` of an array, for k below `count`.
#[derive(Clone, Copy, Debug, PartialEq, Eq)]
pub struct View {
    pub array: u32,
    pub start: u32,
    pub count: u32,
    pub step: i32,
}

impl View {
    /// Whether the view fits an array of this length: its step is not 0, and either it names no place and
    /// starts at most behind the last one, or each place that it names is one of the array.
    pub fn fits(&self, len: u32) -> bool
        ensures { result ≡ fits len self.now }
    {
        if self.step == 0 {
            return false;
        }
        if self.count == 0 {
            return self.start <= len;
        }
        // Places go one way, so all are within where the first and the last are.
        self.start < len && is_within(len, self.at_step(self.count - 1))
    }

    /// The place at `k`, from 0.
    pub fn place(&self, k: u32) -> u32
        requires within { k < self.now.count }
        requires fits { fits_some self.now ≡ true }
        ensures { result ≡ place_at self.now k }
    {
        self.at_step(k) as u32
    }

    /// Whether the view names this place.
    pub fn names(&self, place: u32) -> bool
        requires { fits_some self.now ≡ true }
        ensures { result ≡ names self.now place }
    {
        let stride = self.step.unsigned_abs();
        if self.step > 0 {
            reaches(self.start, place, stride, self.count)
        } else {
            reaches(place, self.start, stride, self.count)
        }
    }

    /// The slice `a:b:c` of an array of this length, as in Python. A bound that is left out is the end from
    /// which, or to which, the step goes.
    pub fn slice(array: u32, len: u32, a: Option<i64>, b: Option<i64>, c: i32) -> View
        requires step { c ≢ pos 0 }
        requires few { len ≤ 8192 }
        ensures { result ≡ slice_of array len a b c }
    {
        let stride = c.unsigned_abs();
        if c > 0 {
            let start = bound_up(len, 0, a);
            let end = bound_up(len, len, b);
            View::from_start(array, start, steps_below(start, end, stride), c)
        } else {
            let start = bound_down(len, len, a);
            let end = bound_down(len, 0, b);
            View::from_start(
                array,
                start.saturating_sub(1),
                steps_below(end, start, stride),
                c,
            )
        }
    }

    /// This many places from a start; one that names none starts at 0.
    fn from_start(array: u32, start: u32, count: u32, step: i32) -> View
        ensures { result ≡ slice_view array start count step }
    {
        let start = if count == 0 { 0 } else { start };
        View {
            array,
            start,
            count,
            step,
        }
    }

    /// Where the view is at `k`, which is no place where it is below 0 or behind the array.
    fn at_step(&self, k: u32) -> i64
        ensures { result ≡ at_step self.now k }
    {
        i64::from(self.start) + i64::from(k) * i64::from(self.step)
    }
}

/// Whether two views have a place of one array in common.
pub fn overlap(a: &View, b: &View) -> bool
    requires one { fits_some a.now ≡ true }
    requires other { fits_some b.now ≡ true }
    ensures { result ≡ overlap a.now b.now }
{
    if a.array != b.array {
        return false;
    }
    for k in 0..a.count {
        if b.names(a.place(k)) {
            return true;
        }
    }
    false
}

/// Whether a whole number is a place of an array of this length.
fn is_within(len: u32, at: i64) -> bool
    ensures { result ≡ is_within len at }
{
    0 <= at && at < i64::from(len)
}
