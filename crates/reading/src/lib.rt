// The first of refusals 2 to 9: `refusal` gives the definition's own answer. That the account by which crate checking goes is the definition's
// on every text of the grammar is proved here.
#![tactic(auto)]

ghost use Rattle.reading.specs.Refusal.{Checked, Refuses};

use definition::{Refusal, Rule};

// The first of refusals 3 to 9, if the text is one of the grammar, with the tables lent.
fn check_by(text: &[u8], recogniser: &grammar::Recogniser) -> Result<usize, Refusal>
    ensures { Checked text.now result }
{
    checking::checked(text, recogniser)
}

// The first of refusals 2 to 9. The tables are copied once for both passes.
pub fn refusal(text: &[u8]) -> Result<usize, Refusal>
    ensures { Refuses text.now result }
{
    let recogniser = grammar::Recogniser::new();
    grammar::recognised(text, &recogniser).map_err(|place| Refusal {
        rule: Rule::NotInGrammar,
        place,
    })?;
    check_by(text, &recogniser)
}
