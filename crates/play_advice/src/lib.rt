// The play at the record's start, and the advice: for anyone, with any file and any play (SPEC 8.4). The file is loaded, and its own
// refusals come first.
#![tactic(auto)]

ghost use Rattle.std.specs.Prelude.{◌≡◌};
ghost use Rattle.automata.specs.TargetBody.{target_of};
ghost use Rattle.advice.specs.AdviceNumber.{advice_number};
ghost use Rattle.game.specs.Job.{game_of, record_of};
ghost use Rattle.game.specs.Advice.{AdviceIs};
ghost use Rattle.play.specs.Play.{start_play, held_of, tags_left};
ghost use Rattle.play_advice.specs.Advice.{AdviceOf, advice_answer};
ghost use Rattle.play_advice.specs.Start.{StartOf};
ghost use Rattle.play_advice.specs.Inner.LoadedFor.{LoadedFor, FittedFor};

use crate::fitted::{Asked, Fitted};
use advice::{Advised, advice_from};
use automata::target::TargetBody;
use job::loader::load;
use job::refusal::Refusal;
use play::Play;
use play::fits::play_fits;
use play::moves::Moved;
use solver::Solver;

pub mod fitted;

// At the record's start.
pub fn begun(target: TargetBody) -> Play
    ensures { result ≡ start_play (target_of target.entry.bytes.now) }
{
    Play::in_state(target.start())
}

// The play at the record's start (SPEC 8.4). `StartOf` says which play comes with a refusal, `nowhere`, so that this is no `Result` of a
// play.
pub fn start(file: &[u8]) -> Moved
    ensures { StartOf file.now result }
{
    match load(file) {
        Ok(job) => Moved {
            play: begun(job.accepted(file).target()),
            answer: Ok(()),
        },
        Err(e) => Moved {
            play: Play::nowhere(),
            answer: Err(e),
        },
    }
}

// The file, loaded for who asks of a play with no buffer; or its refusal. With the file comes `Play` if the play does not fit it.
pub fn load_for(p: Play, file: &[u8]) -> Result<Asked, Refusal>
    ensures { LoadedFor file.now p result }
{
    let job = load(file)?;
    let accepted = job.accepted(file);
    let answer = if play_fits(p, accepted.target(), accepted.record()) {
        Ok(())
    } else {
        Err(Refusal::Play)
    };
    Ok(Asked {
        file: accepted,
        effects: job.effects,
        answer,
    })
}

// The play with the file, or the first refusal.
pub fn fitted_for(p: Play, file: &[u8]) -> Result<Fitted, Refusal>
    ensures { FittedFor file.now p result }
{
    let asked = load_for(p, file)?;
    asked.answer?;
    Ok(Fitted {
        play: p,
        file: asked.file,
        effects: asked.effects,
    })
}

// What to do next: see AdviceOf.
pub fn advice(p: Play, file: &[u8]) -> Result<Advised, Refusal>
    ensures { AdviceOf file.now p (advice_answer result) }
{
    let fitted = fitted_for(p, file)?;
    Ok(advice_on(fitted))
}

// The advice on an accepted file for a play that fits (SPEC 4.8, 4.9).
pub fn advice_on(fitted: Fitted) -> Advised
    ensures { AdviceIs (game_of fitted.entry.file.file.now) (tags_left (record_of fitted.entry.file.file.now) fitted.entry.play)
        (held_of fitted.entry.play) (advice_number result) }
{
    let sets = fitted.effects.table();
    let solver = Solver {
        target: fitted.file.target(),
        sets: &sets,
    };
    let p = fitted.play;
    let record = fitted.file.record();
    advice_from(solver, &record[p.position..], p.state, p.kept_states())
}
