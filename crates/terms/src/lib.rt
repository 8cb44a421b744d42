// The terms that every crate shares: positions and batch numbers, refusals and their places, two reserved numbers.
#![tactic(auto)]

mod position;
mod refusal;
mod reserved;

pub use position::{BatchNumber, Position};
pub use refusal::{Place, Refusal, Refused, Verdict, refuse_if, verdict_number, verdict_place};
pub use reserved::{NO_END, NO_SLOT, is_no_end, is_no_slot};
