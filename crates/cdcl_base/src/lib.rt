//! What solvers by conflict-driven clause learning stand on, however they propagate.
//!
//! - `literal`: literals in 32 bits ([`PackedLit`])
//! - `clauses`: clauses in one array ([`Clauses`])
//! - `trail`: the true literals with their reasons and levels ([`Trail`])
//! - `analysis`: conflict analysis up to the first unique implication point ([`Analyzer`], [`refute`])
//! - `decision`: the scores of the variables, and which is decided next ([`Scores`])
//! - `answer`: what a solver answers ([`Answer`])
//!
//! Sources: J. Marques-Silva, K. Sakallah, GRASP, 1999; M. Moskewicz, C. Madigan, Y. Zhao, L. Zhang, S. Malik, Chaff,
//! 2001; N. Eén, N. Sörensson, An Extensible SAT-solver (MiniSat), 2003, whose names are used.
#![tactic(auto)]

mod analysis;
mod answer;
mod clauses;
mod decision;
mod literal;
mod trail;

pub use analysis::{Analyzer, Learnt, refute};
pub use answer::Answer;
pub use clauses::Clauses;
pub use decision::Scores;
pub use literal::PackedLit;
pub use trail::Trail;
