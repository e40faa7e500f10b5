// Bytes put into a lent buffer.
ghost use Rattle.std.specs.Prelude.{◌≡◌, ◌+◌, ◌≤◌, length};
ghost use Rattle.std.proofs.Math.Seq.{paste as pasted};

// The piece stands in the buffer from a place on, and every other byte is as it was.
pub fn paste(buffer: &mut [u8], at: usize, piece: &[u8])
    requires { at + length piece.now ≤ length buffer.old }
    ensures { buffer.new ≡ pasted buffer.old at piece.now (length piece.now) }
{
    // Byte by byte: `copy_from_slice` would have the library for C ask for `memmove` from outside.
    for (i, &byte) in piece.iter().enumerate() {
        buffer[at + i] = byte;
    }
}
