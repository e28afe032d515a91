//! The parts of an asserted formula: a conjunction asserts its parts, a disjunction is one clause of its parts.

ghost use Rattle.std.specs.Prelude.{◌≡◌, ◌<◌, IfOk, IfSome};
ghost use Rattle.bv_terms.specs.Table.{IsTable};
ghost use Rattle.bit_blast.specs.Parts.{IsFormulaNode, AreParts, AreMembers, IsConnective};

use bv_terms::{Op, TermId, Terms};
use std::alloc::{AllocError, Global};
use std::collections::BTreeSet;

/// A formula, or its opposite.
#[derive(Clone, Copy, Debug, PartialEq, Eq, PartialOrd, Ord)]
pub(crate) struct Part {
    pub(crate) at: TermId,
    pub(crate) holds: bool,
}

/// How a part is joined of others: it holds where all of them do, or some.
#[derive(Clone, Copy, Debug, PartialEq, Eq)]
pub(crate) enum Join {
    All,
    Any,
}

/// How a connective joins its operands, and whether the first one is negated before. No other operation does so.
fn connective(op: Op) -> Option<(Join, bool)>
    ensures { IfSome result (λ r. IsConnective op r.0 r.1) }
{
    match op {
        Op::And => Some((Join::All, false)),
        Op::Or => Some((Join::Any, false)),
        Op::Implies => Some((Join::Any, true)),
        _ => None,
    }
}

/// The two parts of a part, where it is joined so; the operand's opposite alone, twice, where it is a negation.
fn members(terms: &Terms, part: Part, join: Join) -> Option<(Part, Part)>
    requires table { IsTable terms.now }
    requires formula { IsFormulaNode terms.now part.at }
    ensures { IfSome result (λ r. AreMembers terms.now join part r.0 r.1) }
{
    let (op, args) = terms.node(part.at);
    if let Op::Not = *op {
        let inner = Part {
            at: args[0],
            holds: !part.holds,
        };
        return Some((inner, inner));
    }
    let (joined, is_negated) = connective(*op)?;
    // The opposite of a conjunction is the disjunction of the opposites, and the other way round.
    if (joined == join) != part.holds {
        return None;
    }
    let left = Part {
        at: args[0],
        holds: part.holds != is_negated,
    };
    let right = Part {
        at: args[1],
        holds: part.holds,
    };
    Some((left, right))
}

/// The parts that a part is joined of, so that none of them is joined so. Each is taken apart once, the greatest first,
/// since operands are smaller.
pub(crate) fn flattened(
    alloc: Global,
    terms: &Terms,
    part: Part,
    join: Join,
) -> Result<Vec<Part>, AllocError>
    requires table { IsTable terms.now }
    requires formula { IsFormulaNode terms.now part.at }
    ensures { IfOk result (λ parts. AreParts terms.now join part parts.items) }
{
    let mut pending = BTreeSet::new(alloc);
    pending.insert(part)?;
    let mut found = Vec::new(alloc);
    while let Some(next) = pending.pop_last() {
        let Some(pair) = members(terms, next, join) else {
            found.push(next)?;
            continue;
        };
        pending.insert(pair.0)?;
        pending.insert(pair.1)?;
    }
    Ok(found)
}
