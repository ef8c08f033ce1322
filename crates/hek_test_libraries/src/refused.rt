//! Each call that takes memory, where one of its growths is refused. In the gate all memory is there; `tools/refused_growths` runs these
//! tests with each growth refused in turn.

mod builder;
mod crowd;
mod debugger;
mod events;
mod machines;
mod runs;
mod texts;
