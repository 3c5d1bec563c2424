#![tactic(auto)]

ghost use Rattle.known.specs.Answers.{KnownAnswers};

// What is known by hand of ten examples is what the definitions yield: the refusals and the ledger for channels, the
// meaning of a ticket for sources. Nothing is computed.
pub fn known_answers_hold()
    ensures { KnownAnswers }
{}
