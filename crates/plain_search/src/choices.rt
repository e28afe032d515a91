//! The choices of one element of each of some lists, in lexicographic order.

ghost use Rattle.std.specs.Prelude.{◌≡◌, ◌<◌, ◌∷◌, ◌++◌, map, All, IfOk, OnOk};
ghost use Rattle.std.specs.List.{flat_map};
ghost use Rattle.plain_search.specs.Patterns.{choices, numbers};

use collections::Seq;
use std::alloc::{AllocError, Global};

/// One element before some others.
fn longer<T: Copy>(alloc: Global, first: T, rest: &[T]) -> Result<Seq<T>, AllocError>
    ensures { IfOk result (λ list. list ≡ first ∷ rest.now) }
{
    let mut list = Vec::new(alloc);
    list.push(first)?;
    list.extend_from_slice(rest)?;
    Ok(Seq::from_vec(list))
}

/// Adds the choices with one more element before each.
fn add_longer<T: Copy>(
    alloc: Global,
    found: &mut Vec<Seq<T>>,
    first: T,
    shorter: &[Seq<T>],
) -> Result<(), AllocError>
    ensures { OnOk result (found.new.items ≡ found.old.items ++ map (λ ys. first ∷ ys) shorter.now) }
{
    for rest in shorter {
        found.push(longer(alloc, first, rest.as_slice())?)?;
    }
    Ok(())
}

/// Each of the elements before each of the choices, in lexicographic order.
fn longer_choices<T: Copy>(
    alloc: Global,
    firsts: &[T],
    shorter: &[Seq<T>],
) -> Result<Vec<Seq<T>>, AllocError>
    ensures { IfOk result (λ found. found.items ≡ flat_map (λ x. map (λ ys. x ∷ ys) shorter.now) firsts.now) }
{
    let mut found = Vec::new(alloc);
    for first in firsts {
        add_longer(alloc, &mut found, *first, shorter)?;
    }
    Ok(found)
}

/// All lists of one element of each of these lists, in lexicographic order.
pub(crate) fn choices_of<T: Copy>(
    alloc: Global,
    lists: &[Seq<T>],
) -> Result<Vec<Seq<T>>, AllocError>
    ensures { IfOk result (λ found. found.items ≡ choices lists.now) }
{
    let mut found = Vec::new(alloc);
    found.push(Seq::new(alloc))?;
    for place in (0..lists.len()).rev() {
        found = longer_choices(alloc, lists[place].as_slice(), &found)?;
    }
    Ok(found)
}

/// The numbers of so many bits.
fn numbers(alloc: Global, width: u8) -> Result<Seq<u64>, AllocError>
    requires { width < 64 }
    ensures { IfOk result (λ found. found ≡ numbers width) }
{
    let mut found = Vec::new(alloc);
    for number in 0..1u64 << width {
        found.push(number)?;
    }
    Ok(Seq::from_vec(found))
}

/// The numbers of so many bits, for each of some widths.
fn all_numbers(alloc: Global, widths: &[u8]) -> Result<Vec<Seq<u64>>, AllocError>
    requires { All (λ w. w < 64) widths.now }
    ensures { IfOk result (λ found. found.items ≡ map numbers widths.now) }
{
    let mut found = Vec::new(alloc);
    for width in widths {
        found.push(numbers(alloc, *width)?)?;
    }
    Ok(found)
}

/// The choices of attributes of some widths.
pub(crate) fn attribute_choices(alloc: Global, widths: &[u8]) -> Result<Vec<Seq<u64>>, AllocError>
    requires { All (λ w. w < 64) widths.now }
    ensures { IfOk result (λ found. found.items ≡ choices (map numbers widths.now)) }
{
    let lists = all_numbers(alloc, widths)?;
    choices_of(alloc, &lists)
}
