// The library for C and Rust: every public call of readings, sweep, choice, watch and power, under names that begin with `royukezan_`. Each is
// one call of the crates below and the conversion of its answer to numbers (`host_answers`). Records go by value and come back, but for the two
// power steps on a record that the modem task lends. Every value of every argument is taken. `tools/build royukezan` makes the archive.
#![tactic(auto)]

mod power_calls;
mod readings_calls;
mod sweep_calls;
mod watch_calls;
