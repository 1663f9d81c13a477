// Document 01's checked examples: no code, a table in specs/. The one statement, that every row of the table holds, is a contract, so that the
// check asks for its proof.
#![tactic(auto)]

ghost use Rattle.examples.specs.Table.{AllHold, table};

// Nothing to run.
pub fn examples()
    ensures { AllHold table }
{}
