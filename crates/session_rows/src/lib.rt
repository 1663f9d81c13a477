// The table of a session's calls, and what each of its rows does to the state and writes.
#![tactic(auto)]

ghost use Rattle.session_rows.specs.Claims.{OneRow};

mod calls;
mod rows;

pub use rows::{ROWS, make, row_of};

// Nothing to run: its contract is what is claimed of the table beyond the calls, so that the check asks for its proof.
pub fn claimed()
    ensures { OneRow }
{}
