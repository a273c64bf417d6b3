// Policy and trial sessions: every call, restart, end, and runs of texts.
#![tactic(auto)]

mod calling;
pub mod judge;
pub mod kind;
mod life;
pub mod progress;
mod record;
mod run;
pub mod session;
mod setting;
mod step;
