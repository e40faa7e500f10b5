// The losing reply (SPEC 13.1 to 13.4): what follows is judged, and a reply is sought that leads to none of the states from which that is
// won.
#![tactic(auto)]

ghost use Rattle.std.specs.Prelude.{◌≡◌, true, ℕ, ◌<◌};
ghost use Rattle.words.specs.Stack.{newest_first};
ghost use Rattle.words.specs.Tag.{closing, codes, word_of};
ghost use Rattle.words.specs.Vocabulary.{fetchable};
ghost use Rattle.automata.specs.Target.{at};
ghost use Rattle.automata.specs.ReplyBody.{form_of};
ghost use Rattle.game.specs.Game.{Game};
ghost use Rattle.game.specs.Held.{held};
ghost use Rattle.solver.specs.Inner.PlayedWith.{PlayedWith};
ghost use Rattle.advice.specs.Inner.WonFrom.{LeftPast};
ghost use Rattle.losing.specs.Inner.Found.{OutcomeFound};

use advice::{KeptStates, won_states};
use automata::reply::ReplyBody;
use effects::Shortest;
use shortest::shortest_outside;
use solver::Solver;

// At the closing tag of the innermost open element, which has this form: how long the losing reply is, which is written from the buffer's
// first byte on where it has room. The rest is what follows the tag.
pub fn losing_from<'a>(
    solver: Solver<'a>,
    form: ReplyBody<'a>,
    rest: &'a [u8],
    mut kept: KeptStates,
    buffer: &mut [u8],
) -> Shortest
    requires { LeftPast solver.target.bytes.now solver.sets.now rest.now kept.states kept.depth }
    ensures { (G : Game) → PlayedWith G solver.entry.target.bytes.now solver.entry.sets.now →
        (c state : ℕ) → c < codes → fetchable c ≡ true → G.forms c ≡ form_of form.entry.bytes.now →
        OutcomeFound (held G) (closing c) (word_of rest.now) (at state (newest_first kept.states kept.depth))
        buffer.old result buffer.new }
{
    let q = kept.pop();
    let won = won_states(solver, rest, kept);
    shortest_outside(solver.target, form, q, won, buffer)
}
