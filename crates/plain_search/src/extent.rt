//! What the plain search takes: no memory, and few bits of inputs and of attributes.

ghost use Rattle.std.specs.Prelude.{◌≡◌, ◌↔◌, ◌≤◌, ◌<◌, ℕ, length, sum, sum_by, slice_get, Some, IsTrue};
ghost use Rattle.std.specs.List.{list_all};
ghost use Rattle.bv_terms.specs.Sorts.{width_of};
ghost use Rattle.isel_spec.specs.File.{Goal, sorts_in};
ghost use Rattle.isel_spec.specs.Spec.{file};
ghost use Rattle.pattern_core.specs.Rule.{HasNoMemory};
ghost use Rattle.plain_search.specs.Extent.{is_value, takes_values, attribute_bits_of, CanSearch};

use bv_terms::Sort;
use isel_spec::{Kind, Spec};

/// The most bits of a goal's inputs, and of the attributes of a pattern's operations.
const MOST_BITS: u32 = 12;

/// Whether none of these sorts is a memory.
fn are_values(sorts: &[Sort]) -> bool
    ensures { result ≡ list_all is_value sorts.now }
{
    for sort in sorts {
        if sort.is_same(Sort::Mem) {
            return false;
        }
    }
    true
}

/// Whether none of a goal's inputs is a memory.
fn are_inputs_values(args: &[(Kind, Sort)]) -> bool
    ensures { result ≡ list_all is_value (sorts_in args.now) }
{
    for arg in args {
        if arg.1.is_same(Sort::Mem) {
            return false;
        }
    }
    true
}

/// Whether no operation takes a memory.
fn do_operations_take_values(spec: &Spec) -> bool
    ensures { result ≡ list_all takes_values (file spec.now).ops }
{
    for op in 0..spec.ops.len() {
        if !are_values(spec.op(op).args.as_slice()) {
            return false;
        }
    }
    true
}

/// The bits of those of a goal's inputs that are values, together.
pub fn value_bits(args: &[(Kind, Sort)]) -> u32
    requires { length args.now ≤ 4 }
    ensures value { result ≡ sum_by width_of (sorts_in args.now) }
    ensures small { result ≤ 1020 }
{
    let mut total: u32 = 0;
    for arg in args {
        total += u32::from(arg.1.width());
    }
    total
}

/// The sum of at most two widths.
fn sum_of(widths: &[u8]) -> u32
    requires { length widths.now ≤ 2 }
    ensures value { result ≡ sum widths.now }
    ensures small { result ≤ 510 }
{
    let mut total: u32 = 0;
    for width in widths {
        total += u32::from(*width);
    }
    total
}

/// The bits of an operation's attributes together.
pub fn attribute_bits_of(spec: &Spec, op: usize) -> u32
    requires { op < length spec.now.ops }
    ensures value { result ≡ attribute_bits_of (file spec.now) op }
    ensures small { result ≤ 510 }
{
    sum_of(spec.op(op).attrs.as_slice())
}

/// The most attribute bits of one operation.
fn most_attribute_bits(spec: &Spec) -> u32
    ensures above { (op : ℕ) → attribute_bits_of (file spec.now) op ≤ result }
    ensures reached { (op : ℕ) × (attribute_bits_of (file spec.now) op ≡ result) }
    ensures small { result ≤ 510 }
{
    let mut most = 0;
    for op in 0..spec.ops.len() {
        most = most.max(attribute_bits_of(spec, op));
    }
    most
}

/// Whether no operation takes a memory, nor does the goal. It takes no memory itself.
pub fn has_no_memory(spec: &Spec, goal: u32) -> bool
    requires { goal < length spec.now.goals }
    ensures { (g : Goal) → slice_get (file spec.now).goals goal ≡ Some g →
        (IsTrue result ↔ HasNoMemory (file spec.now) g) }
{
    let args = spec.goal(goal).args.as_slice();
    if !are_inputs_values(args) {
        return false;
    }
    do_operations_take_values(spec)
}

/// Whether the plain search takes a goal for patterns of at most so many operations: no operation and not the goal
/// has a memory, the goal's inputs have at most 12 bits together, and so have the attributes of any such operations,
/// counted with repeats.
pub fn can_search(spec: &Spec, goal: u32, bound: u8) -> bool
    requires { goal < length spec.now.goals }
    ensures { (g : Goal) → slice_get (file spec.now).goals goal ≡ Some g →
        (IsTrue result ↔ CanSearch (file spec.now) g bound) }
{
    if !has_no_memory(spec, goal) {
        return false;
    }
    let args = spec.goal(goal).args.as_slice();
    if value_bits(args) > MOST_BITS {
        return false;
    }
    u32::from(bound) * most_attribute_bits(spec) <= MOST_BITS
}
