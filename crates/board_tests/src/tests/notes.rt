//! A small entry, and workers that enter it.

ghost use Rattle.std.specs.Prelude.{◌≡◌, ◌≤◌, IfSome, IfOk, All};

use claim_board::{Blank, Board, Drawn, Entry, Name, Over, Pass, Task};
use isel_spec::Spec;
use multiset_rank::ClaimPlan;
use std::alloc::{AllocError, Global};
use std::sync::Wait;

/// An entry that has its claim's number and a size.
#[derive(Drop)]
pub struct Note {
    pub number: u64,
    pub size: Option<u8>,
}

impl Entry for Note {
    ghost right = { λ task number note. note.number ≡ number };

    ghost size = { λ note. note.size };

    fn least(&self) -> Option<u8> {
        self.size
    }
}

/// A blank for the claims of so many goals and operations, with at most `bound` operations each.
pub fn blank<E: Entry>(
    alloc: Global,
    goals: u32,
    kinds: u32,
    bound: u8,
    workers: u32,
) -> Result<Option<Blank<E>>, AllocError>
    requires some_goals { 1 ≤ goals }
    requires most_goals { goals ≤ 256 }
    requires some_kinds { 1 ≤ kinds }
    requires most_kinds { kinds ≤ 64 }
    requires bound { bound ≤ 6 }
    requires some { 1 ≤ workers }
    requires most { workers ≤ 64 }
    ensures workers { IfOk result (λ made. IfSome made (λ blank. blank.task.workers ≡ workers)) }
    ensures goals { IfOk result (λ made. IfSome made (λ blank. blank.task.plan.goals ≡ goals)) }
{
    let Ok(plan) = ClaimPlan::new(goals, kinds, bound) else {
        return Ok(None);
    };
    let spec = Spec::new(alloc, 8);
    Ok(Some(Blank::new(alloc, &spec, plan, 1, workers)?))
}

/// Draws claims and enters each under its number, until there is none left.
pub fn work<L: Name, R: Wait>(rt: &R, board: &Board<L, Note>, mut pass: Pass) -> Option<Over>
    requires { pass.table ≡ L.board.table }
    ensures { IfSome result (λ over. over.table ≡ L.board.table) }
{
    for _ in 0..1 << 21 {
        match board.claim(pass) {
            Drawn::Over(over) => return Some(over),
            Drawn::Claim(claim) => {
                let number = claim.number();
                pass = board.publish(rt, claim, Note { number, size: None });
            }
        }
    }
    None
}

/// The next pass, which is of the board as all of them are.
pub fn next<L: Name>(passes: &mut Vec<Pass>) -> Option<Pass>
    requires { All (λ pass. pass.table ≡ L.board.table) passes.old.items }
    ensures pass { IfSome result (λ pass. pass.table ≡ L.board.table) }
    ensures rest { All (λ pass. pass.table ≡ L.board.table) passes.new.items }
{
    passes.pop()
}

/// Whether the claims of the entries are the numbers below `claims`, each once.
pub fn are_once(alloc: Global, entries: &[(u64, Note)], claims: usize) -> Result<bool, AllocError> {
    let mut counts = vec![in alloc; 0u8; claims]?;
    for entry in entries {
        let place = entry.0 as usize;
        if place >= counts.len() {
            return Ok(false);
        }
        counts[place] = counts[place].saturating_add(1);
    }
    Ok(counts.iter().all(|count| *count == 1))
}
