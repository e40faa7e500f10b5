// The loader: a file's refusal, and of an accepted file its job.
ghost use Rattle.std.specs.Prelude.{◌≡◌, true, ℕ, ◌≤◌};
ghost use Rattle.automata.specs.Target.{Target, Closed};
ghost use Rattle.automata.specs.TargetBody.{most_states, target_of, ValidTarget};
ghost use Rattle.automata.specs.Reply.{Form};
ghost use Rattle.automata.specs.ReplyBody.{ValidReply};
ghost use Rattle.effects.specs.Effects.{EffectsOf};
ghost use Rattle.contents.specs.Contents.{has_form, target_body, reply_body};
ghost use Rattle.job.specs.Refusal.{first_of};
ghost use Rattle.job.specs.RefusalNumber.{RefusedBy};
ghost use Rattle.job.specs.File.{form_in, OutOfSize, form_rules, rule14, rule17, table_rules, record_rules};
ghost use Rattle.job.specs.Loaded.{OffsetsOf, LoadedOf};

use crate::accepted_file::Accepted;
use crate::refusal::Refusal;
use automata::reply::{ReplyBody, reply_ok};
use automata::target::{TargetBody, target_ok};
use contents::bodies::Bodies;
use contents::{CONTENTS_LENGTH, FORM_CODES, Offsets, locate};
use effects::Effects;
use words::nesting::judge;

// The bytes of the longest file (SPEC 6.11).
pub const LARGEST: usize = 37436;

// The elements that a record may have open at once (SPEC 6.10, 7.16).
pub const MOST_RECORD_DEPTH: usize = 4;

// The refusal `ReplyForm`, of the forms by rising code.
fn check_forms(bodies: Bodies) -> Result<(), Refusal>
    ensures { RefusedBy (first_of (form_rules (rule14 bodies.entry.file.now))) result }
{
    for c in FORM_CODES {
        if !reply_ok(bodies.form(c)) {
            return Err(Refusal::ReplyForm);
        }
    }
    Ok(())
}

// The refusals `Target` and `ReplyForm`.
fn check_tables(bodies: Bodies) -> Result<(), Refusal>
    ensures { RefusedBy (first_of (table_rules bodies.entry.file.now)) result }
{
    if target_ok(bodies.target()) {
        check_forms(bodies)
    } else {
        Err(Refusal::Target)
    }
}

// The effects of the forms, one form after the other.
fn effects_in(bodies: Bodies) -> Effects
    requires valid_target { ValidTarget (target_body bodies.file.now) }
    requires valid_forms { (c : ℕ) → has_form c ≡ true → ValidReply (reply_body bodies.file.now c) }
    ensures { EffectsOf (target_of (target_body bodies.entry.file.now)) has_form (form_in bodies.entry.file.now) result }
{
    let target = TargetBody {
        bytes: bodies.target(),
    };
    let mut effects = Effects::none();
    for c in FORM_CODES {
        let form = ReplyBody {
            bytes: bodies.form(c),
        };
        effects = effects.with_form(target, form, c);
    }
    effects
}

// The refusal `NoReply`, by the effects: a form that has a lawful reply has one from every state.
fn check_replies(effects: Effects) -> Result<(), Refusal>
    ensures { (A : Target) (forms : ℕ → Form) → Closed A → A.states ≤ most_states → EffectsOf A has_form forms effects →
        RefusedBy (first_of (form_rules (rule17 forms))) result }
{
    for c in FORM_CODES {
        if effects.set(c, 0) == 0 {
            return Err(Refusal::NoReply);
        }
    }
    Ok(())
}

// The refusals `Record` and `RecordDeep`.
fn check_record(record: &[u8]) -> Result<(), Refusal>
    ensures { RefusedBy (first_of (record_rules «record».now)) result }
{
    match judge(record) {
        Err(_) => Err(Refusal::Record),
        Ok(depth) if MOST_RECORD_DEPTH < depth => Err(Refusal::RecordDeep),
        Ok(_) => Ok(()),
    }
}

// Where the bodies of a file begin, and the effects of its forms.
#[derive(Clone, Copy)]
pub struct Job {
    pub offsets: Offsets,
    pub effects: Effects,
}

impl Job {
    // The file with its offsets.
    pub fn accepted<'a>(self, file: &'a [u8]) -> Accepted<'a>
        requires { OffsetsOf file.now self.offsets }
        ensures { result.file ≡ file.entry }
    {
        Accepted {
            file,
            offsets: self.offsets,
        }
    }
}

// The job of a file whose size and contents are right.
fn load_bodies(bodies: Bodies) -> Result<Job, Refusal>
    requires { ¬ (OutOfSize bodies.file.now) }
    ensures { LoadedOf bodies.entry.file.now result }
{
    check_tables(bodies)?;
    let effects = effects_in(bodies);
    check_replies(effects)?;
    check_record(bodies.record())?;
    Ok(Job {
        offsets: bodies.offsets,
        effects,
    })
}

// The job of a file, or its refusal.
pub fn load(file: &[u8]) -> Result<Job, Refusal>
    ensures { LoadedOf file.now result }
{
    if file.len() < CONTENTS_LENGTH || LARGEST < file.len() {
        return Err(Refusal::FileSize);
    }
    let offsets = locate(file).ok_or(Refusal::Contents)?;
    load_bodies(Bodies { file, offsets })
}
