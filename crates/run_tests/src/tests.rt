//! Tests of runs.

mod behind;
mod calls;
mod failing;
mod generated;
mod growing;
mod in_turn;
mod loads;
mod long;
mod realistic;
mod receivers;
mod waiting;
