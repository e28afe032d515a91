//! The inputs of the formula: what each of them says of a pattern, and its number.

ghost use Rattle.std.specs.Prelude.{◌≡◌, ◌<◌};
ghost use Rattle.loc_encode.specs.Slots.{slot_number, source_number};
ghost use Rattle.loc_encode.specs.Numbers.{slot_at, line_slot, source_at};

use pattern_core::Src;

/// How many numbers there are for each line.
const PER_LINE: u32 = 280;

/// The first number of a line's attributes, and that of its arguments.
const ATTRS: u32 = 64;

const ARGS: u32 = 192;

/// The first number of the results, after those of six lines.
const RESULTS: u32 = 1680;

/// How many numbers there are for a place that has a source.
pub(crate) const SOURCES: u32 = 22;

/// How many numbers of inputs there are.
pub(crate) const SLOTS: u32 = 1746;

/// What an input of the formula says. Lines, operations, places, inputs and results are counted from 0; the node at a
/// line is the node of that number.
#[derive(Clone, Copy, Debug, PartialEq, Eq)]
pub enum Slot {
    /// Whether the node at a line is of an operation.
    Kind { line: u8, op: u16 },
    /// The attribute in a place of the node at a line, where that node is of the operation.
    Attr { line: u8, op: u16, place: u8 },
    /// Whether the argument in a place of the node at a line comes from a source.
    Arg { line: u8, place: u8, source: Src },
    /// Whether the result in a place comes from a source.
    Result { place: u8, source: Src },
}

/// The number of a source: inputs come first, and each node has room for three results.
fn source_number(source: Src) -> u32
    ensures number { result ≡ source_number source }
    ensures bound { result < 1028 }
{
    match source {
        Src::Input(input) => u32::from(input),
        Src::Out { node, result } => 4 + 3 * u32::from(node) + u32::from(result),
    }
}

/// The source of a number.
pub(crate) fn source_at(number: u32) -> Src
    requires { number < 22 }
    ensures { result ≡ source_at number }
{
    if number < 4 {
        Src::Input(number as u8)
    } else {
        Src::Out {
            node: ((number - 4) / 3) as u8,
            result: ((number - 4) % 3) as u8,
        }
    }
}

/// The slot of a line and a number within its numbers.
fn line_slot(line: u8, rest: u32) -> Slot
    requires { rest < 280 }
    ensures { result ≡ line_slot line rest }
{
    if rest < ATTRS {
        return Slot::Kind {
            line,
            op: rest as u16,
        };
    }
    if rest < ARGS {
        return Slot::Attr {
            line,
            op: ((rest - ATTRS) / 2) as u16,
            place: ((rest - ATTRS) % 2) as u8,
        };
    }
    Slot::Arg {
        line,
        place: ((rest - ARGS) / SOURCES) as u8,
        source: source_at((rest - ARGS) % SOURCES),
    }
}

impl Slot {
    /// The number of the slot's input.
    pub(crate) fn number(self) -> u32
        ensures { result ≡ slot_number self }
    {
        match self {
            Slot::Kind { line, op } => PER_LINE * u32::from(line) + u32::from(op),
            Slot::Attr { line, op, place } => {
                PER_LINE * u32::from(line) + ATTRS + 2 * u32::from(op) + u32::from(place)
            }
            Slot::Arg {
                line,
                place,
                source,
            } => {
                PER_LINE * u32::from(line)
                    + ARGS
                    + SOURCES * u32::from(place)
                    + source_number(source)
            }
            Slot::Result { place, source } => {
                RESULTS + SOURCES * u32::from(place) + source_number(source)
            }
        }
    }

    /// The slot of a number.
    pub(crate) fn at(number: u32) -> Slot
        requires { number < 1746 }
        ensures { result ≡ slot_at number }
    {
        if number < RESULTS {
            return line_slot((number / PER_LINE) as u8, number % PER_LINE);
        }
        Slot::Result {
            place: ((number - RESULTS) / SOURCES) as u8,
            source: source_at((number - RESULTS) % SOURCES),
        }
    }
}
