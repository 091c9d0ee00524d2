ghost use Rattle.lab.specs.Outcomes.{KnownOutcomes};

// Programs with known outcomes, computed from their bytes through the whole specification.
pub fn known_outcomes()
    ensures { KnownOutcomes }
{
    grammar::known_answers();
    grammar::texts_accepted_exactly();
    let _ = machine::out_and_back();
}
