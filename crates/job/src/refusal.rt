// The refusals (SPEC 7), of files and of calls, each with its number.
ghost use Rattle.std.specs.Prelude.{◌≡◌};
ghost use Rattle.job.specs.RefusalNumber.{refusal_number};

// What is wrong with a file, a history, a play or a call.
#[derive(Clone, Copy, Debug, PartialEq, Eq)]
pub enum Refusal {
    FileSize = 11,
    Contents = 12,
    Target = 13,
    ReplyForm = 14,
    Record = 15,
    RecordDeep = 16,
    NoReply = 17,
    // A reply that is not small enough, or no well-nested word.
    Reply = 18,
    Unlawful = 19,
    // Bytes that are no history.
    History = 20,
    // A play that does not fit.
    Play = 21,
    AtEnd = 22,
    NoFetch = 23,
    Buffer = 24,
    // The losing reply has more than 4,096 tags.
    TooLong = 25,
    // The buffer is shorter than the losing reply.
    NoRoom = 26,
}

impl From<Refusal> for u32 {
    ghost from_gives = { λ refusal number. number ≡ refusal_number refusal };

    fn from(refusal: Refusal) -> u32 {
        refusal as u32
    }
}
