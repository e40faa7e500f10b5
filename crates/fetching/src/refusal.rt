// The refusals of a fetch by its tag and its reply, in their order (SPEC 7.3).
ghost use Rattle.std.specs.Prelude.{◌≡◌, List, ℕ, ◌<◌};
ghost use Rattle.words.specs.Tag.{tag_bytes, tag_of};
ghost use Rattle.job.specs.Refusal.{first_of};
ghost use Rattle.job.specs.RefusalNumber.{RefusedBy};
ghost use Rattle.game.specs.Game.{allowed};
ghost use Rattle.game.specs.Job.{game_of};
ghost use Rattle.fetching.specs.FetchRules.{fetch_rules};
ghost use Rattle.fetching.specs.Inner.Forms.{FormsOf};

use automata::target::MOST_REPLY_DEPTH;
use job::accepted_file::Accepted;
use job::refusal::Refusal;
use replies::lawful::is_lawful;
use replies::transitions::TRANSITIONS;
use words::nesting::within_depth;
use words::tag::{code_of, is_opening};
use words::vocabulary::fetchable;

// Whether a fetch is allowed at a tag, by its byte (SPEC 3.2, 3.3).
pub fn may_fetch(b: u8) -> bool
    requires { b < tag_bytes }
    ensures { (file : List ℕ) → result ≡ allowed (game_of file) (tag_of b) }
{
    !is_opening(b) && fetchable(code_of(b))
}

// Refusals 23, 18 and 19, of a fetch at a tag of an accepted file, by the tag's byte, with the forms' relations lent.
pub fn fetch_refusal<'a>(
    file: Accepted<'a>,
    forms: &'a [u64],
    b: u8,
    reply: &'a [u8],
) -> Result<(), Refusal>
    requires { FormsOf file.file.now forms.now × (b < tag_bytes) }
    ensures { RefusedBy (first_of (fetch_rules (game_of file.entry.file.now) (tag_of b) reply.now)) result }
{
    if !may_fetch(b) {
        return Err(Refusal::NoFetch);
    }
    if !within_depth(reply, MOST_REPLY_DEPTH) {
        return Err(Refusal::Reply);
    }
    let code = code_of(b);
    if is_lawful(&forms[TRANSITIONS * code..], file.form(code), reply) {
        Ok(())
    } else {
        Err(Refusal::Unlawful)
    }
}
