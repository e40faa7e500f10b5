// The numbers that stand for effects: 0 where nothing leads, else one more than the elements of the shortest reply, and one number for
// every longer one.
ghost use Rattle.std.specs.Prelude.{◌≡◌, ◌+◌, ◌/◌, ◌%◌, ◌<◌, length};
ghost use Rattle.automata.specs.TargetBody.{most_states, target_of};
ghost use Rattle.automata.specs.ReplyBody.{form_of, most_reply_states};
ghost use Rattle.effects.specs.Effects.{form_numbers};
ghost use Rattle.effects.specs.Inner.Sets.{effect_at, set_count, sets_of};
ghost use Rattle.effects.specs.Inner.Numbers.{numbers_of, NumberOf, NumbersWritten, NumbersPut};

use crate::SETS;
use automata::bits::with;
use automata::reply::ReplyBody;
use automata::target::{MOST_STATES, TargetBody};
use lengths::form::{find_form_lengths, least_over};
use relaxation::found::Found;
use relaxation::pairs::{LENGTHS, MASKS, PAIRS};
use relaxation::relax::{LENGTH_CAP, NO_LENGTH};
use replies::links::LINKS;
use words::tag::CODES;

// The numbers of one form: for each two target states.
pub const FORM_NUMBERS: usize = MOST_STATES * MOST_STATES;

pub const NUMBERS: usize = CODES * FORM_NUMBERS;

// What is longer than can be counted.
pub const LONG_NUMBER: u16 = LENGTH_CAP + 1;

// The number that stands for the least length k. Where nothing is reached, k is NO_LENGTH and the number is 0: the promises of the effects
// (`EffectsOf`, `told`) say that 0 stands for it.
fn number_of(k: u16) -> u16
    ensures { NumberOf k result }
{
    if k == NO_LENGTH { 0 } else { k + 1 }
}

// For each two target states, the number of the least length from form state `from` to one of a mask. It stands by itself, so that its
// loop, which takes a third of the time that a small file is loaded in, goes from register to register.
#[inline(never)]
fn write_numbers(lengths: &[u16; LENGTHS], from: usize, last: u32, numbers: &mut [u16])
    requires { (from < most_reply_states) × (length numbers.old ≡ form_numbers) }
    ensures { NumbersWritten lengths.now from last form_numbers numbers.new }
{
    for (i, number) in numbers.iter_mut().enumerate() {
        *number = number_of(least_over(
            lengths,
            MOST_STATES * from + i / MOST_STATES,
            last,
            i % MOST_STATES,
        ));
    }
}

// The numbers of one form.
pub fn put_numbers(target: TargetBody, reply: ReplyBody, numbers: &mut [u16])
    requires { length numbers.old ≡ form_numbers }
    ensures { NumbersPut (target_of target.entry.bytes.now) (form_of reply.entry.bytes.now) numbers.new }
{
    let mut links = [0u8; LINKS];
    // Written out here: a function that returns it would leave its 137 KB on the stack twice.
    let mut found = Found {
        lengths: [NO_LENGTH; LENGTHS],
        least: [NO_LENGTH; PAIRS],
        known: [0; MASKS],
    };
    find_form_lengths(target, reply, &mut links, &mut found);
    write_numbers(&found.lengths, reply.start(), reply.accepting(), numbers);
}

// The set at index i, which is that of one code and one target state: the states whose number is not 0.
pub fn set_at(numbers: &[u16; NUMBERS], i: usize) -> u32
    requires { i < set_count }
    ensures { result ≡ effect_at (numbers_of numbers.now) (i / most_states) (i % most_states) }
{
    let mut set: u32 = 0;
    for s in 0..MOST_STATES {
        if numbers[MOST_STATES * i + s] != 0 {
            set = with(set, s);
        }
    }
    set
}

// All the sets.
pub fn write_sets(numbers: &[u16; NUMBERS], sets: &mut [u32; SETS])
    ensures { sets.new ≡ sets_of (numbers_of numbers.now) }
{
    for (i, set) in sets.iter_mut().enumerate() {
        *set = set_at(numbers, i);
    }
}
