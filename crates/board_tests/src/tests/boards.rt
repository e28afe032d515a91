//! Boards that are worked on to the end, by one worker and by two threads.

ghost use Rattle.std.specs.Prelude.{◌≡◌, IfSome};

use super::notes::{Note, are_once, blank, next, work};
use claim_board::{Blank, Board, Drawn, Name};
use std::alloc::{AllocError, Global};
use std::marker::Brand;
use std::sync::Wait;
use std::test::Fail;
use std::thread;
use std::thread::Threads;

/// Whether one worker enters each claim once.
fn one_worker<L: Name, R: Wait>(
    rt: &R,
    alloc: Global,
    blank: Blank<Note>,
    claims: usize,
) -> Result<bool, AllocError>
    requires name { L.board ≡ blank }
    requires one { blank.task.workers ≡ 1 }
{
    let (board, mut passes) = blank.open::<L>();
    let Some(pass) = next::<L>(&mut passes) else {
        return Ok(false);
    };
    let Some(over) = work(rt, &board, pass) else {
        return Ok(false);
    };
    let library = board.close(vec![in alloc; over]?);
    are_once(alloc, library.entries(), claims)
}

#[test]
fn one_worker_enters_each_claim_once(rt: HostRuntime) -> Result<(), Fail> {
    let Some(blank) = blank::<Note>(rt.alloc(), 2, 2, 1, 1)? else {
        panic!(rt; "the plan is small")
    };
    assert!(rt; one_worker::<Brand, _>(&rt, rt.alloc(), blank, 6)?);
    Ok(())
}

/// Whether two threads enter each claim once.
fn two_threads<L: Name + Send + Sync, R: Threads + Wait + Sync>(
    rt: &R,
    alloc: Global,
    blank: Blank<Note>,
    claims: usize,
) -> Result<bool, AllocError>
    requires name { L.board ≡ blank }
    requires two { blank.task.workers ≡ 2 }
{
    let (board, mut passes) = blank.open::<L>();
    let (Some(first), Some(second)) = (next::<L>(&mut passes), next::<L>(&mut passes)) else {
        return Ok(false);
    };
    let shared = &board;
    let (left, right) = thread::join(
        rt,
        move ||
            requires { first.table ≡ L.board.table }
            ensures { IfSome result (λ over. over.table ≡ L.board.table) }
        { work(rt, shared, first) },
        move ||
            requires { second.table ≡ L.board.table }
            ensures { IfSome result (λ over. over.table ≡ L.board.table) }
        { work(rt, shared, second) },
    );
    let (Some(left), Some(right)) = (left, right) else {
        return Ok(false);
    };
    let library = board.close(vec![in alloc; left, right]?);
    are_once(alloc, library.entries(), claims)
}

#[test]
fn two_threads_enter_a_thousand_claims_once(rt: HostRuntime) -> Result<(), Fail> {
    let Some(blank) = blank::<Note>(rt.alloc(), 250, 3, 1, 2)? else {
        panic!(rt; "the plan is small")
    };
    assert!(rt; two_threads::<Brand, _>(&rt, rt.alloc(), blank, 1000)?);
    Ok(())
}

#[test]
fn of_two_workers_one_finds_no_claim(rt: HostRuntime) -> Result<(), Fail> {
    let Some(blank) = blank::<Note>(rt.alloc(), 1, 1, 0, 2)? else {
        panic!(rt; "the plan is small")
    };
    assert!(rt; two_threads::<Brand, _>(&rt, rt.alloc(), blank, 1)?);
    Ok(())
}

/// What a look tells of two goals, after the first claim was entered with the size 7.
fn looked<L: Name, R: Wait>(
    rt: &R,
    alloc: Global,
    blank: Blank<Note>,
) -> Result<Option<(Option<u8>, Option<u8>)>, AllocError>
    requires name { L.board ≡ blank }
    requires goals { blank.task.plan.goals ≡ 2 }
{
    let (board, mut passes) = blank.open::<L>();
    let Some(pass) = next::<L>(&mut passes) else {
        return Ok(None);
    };
    let Drawn::Claim(claim) = board.claim(pass) else {
        return Ok(None);
    };
    let number = claim.number();
    let note = Note {
        number,
        size: Some(7),
    };
    let pass = board.publish(rt, claim, note);
    let mut sizes = vec![in alloc; None; 2]?;
    let _pass = board.look(rt, pass, &mut sizes);
    Ok(Some((sizes[0], sizes[1])))
}

#[test]
fn a_look_tells_what_was_entered(rt: HostRuntime) -> Result<(), Fail> {
    let Some(blank) = blank::<Note>(rt.alloc(), 2, 2, 1, 1)? else {
        panic!(rt; "the plan is small")
    };
    let told = looked::<Brand, _>(&rt, rt.alloc(), blank)?;
    assert!(rt; told == Some((Some(7), None)));
    Ok(())
}
