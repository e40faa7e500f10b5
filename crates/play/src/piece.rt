// The "piece" that a move adds to the finished part (SPEC 8.2), and where it stands in a buffer (SPEC 8.3).
ghost use Rattle.std.specs.Prelude.{◌≡◌, ◌+◌, ◌<◌, ◌≤◌, length};
ghost use Rattle.play.specs.Moves.{piece_offset, piece_of, with_piece};
ghost use Rattle.play.specs.Inner.MoveParts.{Open, call_of};

use crate::{Call, Play};
use words::paste::paste;

// What a move adds to the finished part: a tag out of the record, or the reply, as a part of what was lent (SPEC 11.5).
pub fn piece_of<'a>(record: &'a [u8], call: Call<'a>, position: usize) -> &'a [u8]
    requires { position < length «record».now }
    ensures { result.now ≡ piece_of «record».now position (call_of call.entry) }
{
    match call {
        Call::Read => &record[position..position + 1],
        Call::Fetch(reply) => reply,
    }
}

impl Play {
    // Where the piece of a call begins in the finished part.
    pub fn piece_offset(self, call: Call) -> usize
        requires { Open self (call_of call) }
        ensures { result ≡ piece_offset self (call_of call.entry) }
    {
        match call {
            Call::Read => self.count,
            Call::Fetch(_) => self.newest_begin(),
        }
    }

    // The piece of a call, in a buffer.
    pub fn write<'a>(self, record: &'a [u8], call: Call<'a>, buffer: &mut [u8])
        requires fact { Open self (call_of call) × (self.position < length «record».now) }
        requires reply_in_bounds { piece_offset self (call_of call) +
            length (piece_of «record».now self.position (call_of call)) ≤ length buffer.old }
        ensures { buffer.new ≡ with_piece «record».now self (call_of call.entry) buffer.old }
    {
        paste(
            buffer,
            self.piece_offset(call),
            piece_of(record, call, self.position),
        );
    }
}
