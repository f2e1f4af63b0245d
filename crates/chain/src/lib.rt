// The calls that are open while a body is drawn: the place and the symbol of each, the outermost first, in a run that is lent. Refusal 13 asks it, and where
// a drawing is refused it tells the chain (RULES 12, request 4).
#![tactic(auto)]

ghost use Rattle.std.specs.Prelude.{◌≡◌, ◌≤◌, ◌<◌, eqb, length};
ghost use Rattle.definition.specs.Words.{any};
ghost use Rattle.definition.specs.Limits.{deepest};
ghost use Rattle.definition.specs.Position.{chain_told};
ghost use Rattle.chain.specs.Chain.{run_length, open_calls, chain_in, Pushed, Stopped};

// Two numbers for each of the deepest calls, and how many were open where the drawing was refused.
pub const RUN: usize = 65;

const STOPPED: usize = 64;

// Whether a symbol is being drawn: the first `level` calls are open (refusal 13).
pub fn is_open(run: &[usize], level: usize, symbol: usize) -> bool
    requires { (level ≤ deepest) × (length run.now ≡ run_length) }
    ensures { result ≡ any (λ c. eqb c.what symbol) (open_calls run.now level) }
{
    for i in 0..level {
        if run[2 * i + 1] == symbol {
            return true;
        }
    }
    false
}

// A call is open after the first `level`.
pub fn push(run: &mut [usize], level: usize, place: usize, symbol: usize)
    requires { (level < deepest) × (length run.old ≡ run_length) }
    ensures { Pushed level place symbol run.old run.new }
{
    run[2 * level] = place;
    run[2 * level + 1] = symbol;
}

// The drawing is refused where so many are open.
pub fn stop(run: &mut [usize], level: usize)
    requires { (level ≤ deepest) × (length run.old ≡ run_length) }
    ensures { Stopped level run.old run.new }
{
    run[STOPPED] = level;
}

// How many calls were open where the drawing was refused.
pub fn opened(run: &[usize]) -> usize
    requires { length run.now ≡ run_length }
    ensures { result ≡ length (chain_in run.now) }
{
    let level = run[STOPPED];
    if definition::DEEPEST < level {
        return definition::DEEPEST;
    }
    level
}

// Their places, and zeros after them.
#[tactic(auto, using(crate::proofs::Telling::few_opened))]
pub fn places(run: &[usize]) -> [usize; definition::DEEPEST]
    requires { length run.now ≡ run_length }
    ensures { result ≡ chain_told (chain_in run.now) }
{
    let mut told = [0usize; definition::DEEPEST];
    let left = opened(run);
    for next in 0..left {
        told[next] = run[2 * next];
    }
    told
}
