ghost use Rattle.std.specs.Prelude.{◌≡◌, ◌<◌, ◌^◌, length, count_by, IfOk, true};
ghost use Rattle.std.specs.List.{list_any};
ghost use Rattle.sa_call.specs.Told.{is_among, index_at_home, is_named, operand_is_at, output_is_at};
ghost use Rattle.sa_view.specs.Views.{fits_some, places_of};

use sa_base::Memory;
use sa_call::{ArrayDecl, Call, Decls, Operand, View, home_of, is_strings_array};
use std::alloc::Global;

/// The number of an array among the strings arrays, or the plain ones, of its home.
pub fn index_at_home(decls: &Decls, array: u32) -> u32
    requires { array < length decls.now.arrays }
    ensures { result ≡ index_at_home decls.now array }
{
    let arrays = decls.arrays();
    let strings = is_strings_array(decls, array);
    count_among(&arrays[..array as usize], strings, home_of(decls, array))
}

/// How many strings arrays, or how many plain ones, have this home.
fn count_among(arrays: &[ArrayDecl], strings: bool, home: u8) -> u32
    requires { length arrays.now < 2 ^ 32 }
    ensures { result ≡ count_by (is_among strings home) arrays.now }
{
    let mut count = 0u32;
    for array in arrays {
        if is_among(array, strings, home) {
            count += 1;
        }
    }
    count
}

/// Whether an array has this home, and is a strings array or else a plain one.
fn is_among(array: &ArrayDecl, strings: bool, home: u8) -> bool
    ensures { result ≡ is_among strings home array.now }
{
    array.home == home && array.kind.is_strings() == strings
}

/// Whether a call is on the descriptor of this number: a view of it, its output, or its statistics or
/// picture.
pub fn is_named(decls: &Decls, call: &Call, number: u8) -> bool
    ensures { result ≡ is_named decls.now call.now number }
{
    any_is_at(decls, number, call.operands.as_slice())
        || output_is_at(decls, number, &call.out)
        || call.op.descr() == Some(number)
}

/// Whether a view of the operands is on an array of this descriptor.
fn any_is_at(decls: &Decls, number: u8, operands: &[Operand]) -> bool
    ensures { result ≡ list_any (operand_is_at decls.now number) operands.now }
{
    operands
        .iter()
        .any(|operand| operand_is_at(decls, number, operand))
}

/// Whether an operand is a view on an array of this descriptor.
fn operand_is_at(decls: &Decls, number: u8, operand: &Operand) -> bool
    ensures { result ≡ operand_is_at decls.now number operand.now }
{
    match operand {
        Operand::View(view) => home_of(decls, view.array) == number,
        Operand::Literal(_) => false,
    }
}

/// Whether there is an output, on an array of this descriptor.
fn output_is_at(decls: &Decls, number: u8, out: &Option<View>) -> bool
    ensures { result ≡ output_is_at decls.now number out.now }
{
    match out {
        Some(view) => home_of(decls, view.array) == number,
        None => false,
    }
}

/// The places that a view names, in order.
pub fn places(alloc: Global, view: &View) -> Result<Vec<u32>, Memory>
    requires { fits_some view.now ≡ true }
    ensures { IfOk result (λ places. places.items ≡ places_of view.now) }
{
    let mut places = Vec::with_capacity(alloc, view.count as usize)?;
    for k in 0..view.count {
        places.push(view.place(k))?;
    }
    Ok(places)
}
