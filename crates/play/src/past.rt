// What a play holds past a tag.
ghost use Rattle.std.specs.Prelude.{◌≡◌, List, [], ℕ, ◌+◌, ◌<◌, ◌≤◌, ◌^◌, length};
ghost use Rattle.words.specs.Tag.{opening, closing, word_of};
ghost use Rattle.automata.specs.Target.{Target, at, run};
ghost use Rattle.automata.specs.TargetBody.{target_of};
ghost use Rattle.automata.specs.Small.{Small};
ghost use Rattle.advice.specs.Kept.{play_slots};
ghost use Rattle.play.specs.Moves.{MoveCall, tag_at, newest, past_closing, read_tag, fetch_reply, moved};
ghost use Rattle.play.specs.Inner.MoveParts.{Standing, Movable, Writable, with_state, call_of};

use crate::{Call, Play};
use automata::target::TargetBody;
use words::tag::{code_of, is_opening};

impl Play {
    // Past an opening tag, in the state that it leads to.
    fn after_opening(mut self, next: usize) -> Play
        requires { (self.depth < play_slots) × (self.position + 1 < 2 ^ 64) × (self.count + 1 < 2 ^ 64) }
        ensures { (A : Target) (c : ℕ) → next ≡ A.open_to self.state c → result ≡ read_tag A (opening c) self }
    {
        let depth = self.depth;
        self.kept[depth] = self.state;
        self.begins[depth] = self.count;
        self.depth = depth + 1;
        self.position += 1;
        self.count += 1;
        self.state = next;
        self
    }

    // Past a closing tag, in the state reached, with so many bytes finished before what was added and so many added.
    fn closed_last(mut self, next: usize, before: usize, added: usize) -> Play
        requires { (0 < self.depth) × (self.depth ≤ play_slots) × (self.position + 1 < 2 ^ 64) × (before + added < 2 ^ 64) }
        ensures { result ≡ past_closing self next (before + added) }
    {
        let last = self.depth - 1;
        self.kept[last] = 0;
        self.begins[last] = 0;
        self.depth = last;
        self.position += 1;
        self.count = before + added;
        self.state = next;
        self
    }

    // Past a closing tag that was read, in the state that it leads to.
    fn after_closing(self, next: usize) -> Play
        requires { (0 < self.depth) × (self.depth ≤ play_slots) × (self.position + 1 < 2 ^ 64) × (self.count + 1 < 2 ^ 64) }
        ensures { (A : Target) (c : ℕ) → next ≡ A.close_to self.state (newest self self.kept) c →
            result ≡ read_tag A (closing c) self }
    {
        self.closed_last(next, self.count, 1)
    }

    // The state that the newest open element keeps.
    fn newest_kept(self) -> usize
        requires { (0 < self.depth) × (self.depth ≤ play_slots) }
        ensures { result ≡ newest self self.kept }
    {
        let last = self.depth - 1;
        self.kept[last]
    }

    // Where the newest open element begins in the finished part.
    pub fn newest_begin(self) -> usize
        requires { (0 < self.depth) × (self.depth ≤ play_slots) }
        ensures { result ≡ newest self self.begins }
    {
        let last = self.depth - 1;
        self.begins[last]
    }

    // Past a closing tag that was fetched at, in the state that the reply of so many tags leads to.
    fn after_fetch(self, next: usize, added: usize) -> Play
        requires { (0 < self.depth) × (self.depth ≤ play_slots) × (self.position + 1 < 2 ^ 64)
            × (newest self self.begins + added < 2 ^ 64) }
        ensures { (A : Target) (u : List ℕ) → run A (word_of u) (at (newest self self.kept) []) ≡ at next [] →
            added ≡ length u → result ≡ fetch_reply A u self }
    {
        let begin = self.newest_begin();
        self.closed_last(next, begin, added)
    }

    // Past the record's next tag, which is read.
    fn past_tag<'a>(self, target: TargetBody<'a>, record: &'a [u8]) -> Play
        requires { Standing target.bytes.now «record».now self × (self.count + 1 < 2 ^ 64) }
        ensures { result ≡ read_tag (target_of target.entry.bytes.now) (tag_at «record».now self) self }
    {
        let position = self.position;
        let b = record[position];
        let code = code_of(b);
        if is_opening(b) {
            return self.after_opening(target.open_to(self.state, code));
        }
        let kept = self.newest_kept();
        let next = target.close_to(self.state, kept, code);
        self.after_closing(next)
    }

    // Past a closing tag, with the reply in place of the newest open element.
    fn past_reply<'a>(self, target: TargetBody<'a>, record: &'a [u8], reply: &'a [u8]) -> Play
        requires { Standing target.bytes.now «record».now self × (0 < self.depth) × Small reply.now
            × (newest self self.begins + length reply.now < 2 ^ 64) }
        ensures { result ≡ fetch_reply (target_of target.entry.bytes.now) reply.now self }
    {
        let kept = self.newest_kept();
        let next = target.run_over(reply, kept);
        self.after_fetch(next, reply.len())
    }

    // Past the tag of a call, read or fetch, that is accepted.
    pub fn after_move<'a>(self, target: TargetBody<'a>, record: &'a [u8], call: Call<'a>) -> Play
        requires { Movable target.bytes.now «record».now self (call_of call) }
        ensures { result ≡ moved (target_of target.entry.bytes.now) «record».now self (call_of call.entry) }
    {
        match call {
            Call::Read => self.past_tag(target, record),
            Call::Fetch(reply) => self.past_reply(target, record, reply),
        }
    }

    // Past the record's next tag, which is read, without the target's run. It stays apart from `past_tag`, which asks for a target's body
    // and promises that target's states: here there is no target, and the play may hold states that no target has.
    fn stateless_read(self, record: &[u8]) -> Play
        requires { Writable «record».now self MoveCall.to_read }
        ensures { (A : Target) → result ≡ with_state 0 (moved A «record».now self MoveCall.to_read) }
    {
        let position = self.position;
        if is_opening(record[position]) {
            return self.after_opening(0);
        }
        self.closed_last(0, self.count, 1)
    }

    // Past the tag of an accepted call without the target's run: the play after it, put in state 0.
    pub fn stateless_after<'a>(self, record: &'a [u8], call: Call<'a>) -> Play
        requires { Writable «record».now self (call_of call) }
        ensures { (A : Target) → result ≡ with_state 0 (moved A «record».now self (call_of call.entry)) }
    {
        match call {
            Call::Read => self.stateless_read(record),
            Call::Fetch(reply) => {
                let begin = self.newest_begin();
                self.closed_last(0, begin, reply.len())
            }
        }
    }
}
