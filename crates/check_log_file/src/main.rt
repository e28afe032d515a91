//! The program `check_log_file`: it reads a formula and a log of resolution from standard input, and prints the verdict
//! on the log.
#![tactic(auto)]

use anyhow::Result;
use proof_check::{Verdict, check_log};

fn main(rt: HostRuntime) -> Result<()> {
    let input = dimacs::read(&rt)?;
    match check_log(rt.alloc(), &input.cnf, &input.log)? {
        Verdict::Refuted => println!(rt; "refuted")?,
        Verdict::BadStep(chain) => println!(rt; "bad step in chain {chain}")?,
        Verdict::NotEmpty => println!(rt; "not empty")?,
    }
    Ok(())
}
