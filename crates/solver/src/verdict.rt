// The verdict: whether the record is won from its start (SPEC 4.5).
ghost use Rattle.std.specs.Prelude.{length};
ghost use Rattle.words.specs.Tag.{word_of};
ghost use Rattle.words.specs.Forest.{WellNested};
ghost use Rattle.game.specs.Game.{Game};
ghost use Rattle.solver.specs.Inner.PlayedWith.{PlayedWith, Decides};
ghost use Rattle.solver.specs.Inner.Evaluated.{Judgeable};
ghost use Rattle.game.specs.Verdict.{VerdictOf};
ghost use Rattle.solver.specs.Report.{ReportOf};
ghost use Rattle.solver.specs.VerdictNumber.{verdict_number};

use crate::Solver;
use automata::bits::has;
use effects::Effects;
use job::loader::load;
use job::refusal::Refusal;

impl<'a> Solver<'a> {
    // Whether a record is won from its start.
    pub fn verdict_on(self, record: &'a [u8]) -> bool
        requires { Judgeable self.target.bytes.now self.sets.now «record».now (length «record».now) × WellNested (word_of «record».now) }
        ensures { (G : Game) → PlayedWith G self.entry.target.bytes.now self.entry.sets.now →
            Decides G (word_of «record».now) result }
    {
        let whole = self.forest(record, record.len(), self.target.accepting());
        has(whole.states, self.target.start())
    }
}

// The verdict with what it rests on: the number of the target's states, and the effects.
#[derive(Clone, Copy)]
pub struct Report {
    pub won: bool,
    pub states: usize,
    pub effects: Effects,
}

// What any file gets: its refusal, or else the verdict with what that rests on.
pub fn report_on(file: &[u8]) -> Result<Report, Refusal>
    ensures { ReportOf file.now result }
{
    let job = load(file)?;
    let accepted = job.accepted(file);
    let effects = job.effects;
    let target = accepted.target();
    let sets = effects.table();
    let solver = Solver {
        target,
        sets: &sets,
    };
    Ok(Report {
        won: solver.verdict_on(accepted.record()),
        states: target.states(),
        effects,
    })
}

// The verdict alone.
pub fn of_file(file: &[u8]) -> Result<bool, Refusal>
    ensures { VerdictOf file.now (verdict_number result) }
{
    Ok(report_on(file)?.won)
}
