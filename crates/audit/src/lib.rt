// The auditor's side (NC-Audit): the verdict on a response.
#![tactic(auto)]

mod judge;

pub use judge::{number, verdict};

// What Verdict says where nothing is refused.
#[derive(Clone, Copy, Debug, PartialEq, Eq)]
pub enum Judgement {
    Accepted,
    Rejected,
}
