// A play that fits an accepted file, and a file that is loaded for a play.
ghost use Rattle.game.specs.Job.{game_of, record_of};
ghost use Rattle.play.specs.Play.{PlayFits};
ghost use Rattle.play_advice.specs.Inner.FileEffects.{FileEffects};

use effects::Effects;
use job::accepted_file::Accepted;
use job::refusal::Refusal;
use play::Play;

// With the effects of the file's forms.
#[derive(Clone, Copy)]
pub struct Fitted<'a> {
    pub play: Play,
    pub file: Accepted<'a>,
    pub effects: Effects,
    pub ghost fits: { PlayFits (game_of file.file.now).target (record_of file.file.now) play },
    pub ghost found: { ∥ FileEffects file.file.now effects ∥₁ },
}

// An accepted file with the effects of its forms, and what is answered of a play: that it fits, or the refusal `Play`, which says nothing
// against the file.
#[derive(Clone, Copy)]
pub struct Asked<'a> {
    pub file: Accepted<'a>,
    pub effects: Effects,
    pub answer: Result<(), Refusal>,
}
