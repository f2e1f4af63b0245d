// The running counts (RULES 8), one record that is carried along through the drawing, by value in and out.
#![tactic(auto)]

ghost use Rattle.std.specs.Prelude.{◌≡◌, ◌+◌, ◌<◌, ◌^◌};
ghost use Rattle.counts.specs.Counting.{zero_counts, one_more, CountsCall, CountsShape, CountsRedefinition};

use definition::Rule;

#[derive(Clone, Copy)]
pub struct Counts {
    pub calls: usize,
    pub shapes: usize,
    pub redefinitions: usize,
}

// One more, unless it would be more than the most; then the rule that limits it.
fn one_more(had: usize, most: usize, rule: Rule) -> Result<usize, Rule>
    ensures { result ≡ one_more had most rule }
{
    if had < most {
        return Ok(had + 1);
    }
    Err(rule)
}

// Nothing is counted: as a drawing begins, and as a refusal gives the counts back.
pub fn no_counts() -> Counts
    ensures { result ≡ zero_counts }
{
    Counts {
        calls: 0,
        shapes: 0,
        redefinitions: 0,
    }
}

// One call more, or 15.
pub fn count_call(counts: Counts) -> Result<Counts, Rule>
    ensures { CountsCall counts result }
{
    let calls = one_more(counts.calls, definition::MOST_CALLS, Rule::TooManyCalls)?;
    Ok(Counts { calls, ..counts })
}

// One shape more, or 17.
pub fn count_shape(counts: Counts) -> Result<Counts, Rule>
    ensures { CountsShape counts result }
{
    let shapes = one_more(counts.shapes, definition::MOST_SHAPES, Rule::TooManyShapes)?;
    Ok(Counts { shapes, ..counts })
}

// One redefinition more: no refusal limits them.
pub fn count_redefinition(counts: Counts) -> Counts
    requires { counts.redefinitions + 1 < 2 ^ 64 }
    ensures { CountsRedefinition counts result }
{
    let redefinitions = counts.redefinitions + 1;
    Counts {
        redefinitions,
        ..counts
    }
}

// All counts at zero, for a refusal, whatever has been counted. Beside `no_counts` since its callers know it by this name.
pub fn cleared(counts: Counts) -> Counts
    ensures { result ≡ zero_counts }
{
    no_counts()
}
