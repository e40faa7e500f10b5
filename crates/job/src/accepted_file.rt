// An accepted file: its bodies are valid.
ghost use Rattle.std.specs.Prelude.{◌≡◌, true};
ghost use Rattle.contents.specs.Contents.{has_form, target_body, reply_body, record_bytes};
ghost use Rattle.job.specs.Loaded.{OffsetsOf};

use automata::reply::ReplyBody;
use automata::target::TargetBody;
use contents::Offsets;
use contents::bodies::Bodies;

#[derive(Clone, Copy)]
pub struct Accepted<'a> {
    pub file: &'a [u8],
    pub offsets: Offsets,
    pub ghost found: { OffsetsOf file.now offsets },
}

impl<'a> Accepted<'a> {
    fn bodies(self) -> Bodies<'a>
        ensures { result.file ≡ self.entry.file }
    {
        Bodies {
            file: self.file,
            offsets: self.offsets,
        }
    }

    pub fn target(self) -> TargetBody<'a>
        ensures { result.bytes.now ≡ target_body self.entry.file.now }
    {
        TargetBody {
            bytes: self.bodies().target(),
        }
    }

    // The reply form of a code.
    pub fn form(self, code: usize) -> ReplyBody<'a>
        requires { has_form code ≡ true }
        ensures { result.bytes.now ≡ reply_body self.entry.file.now code }
    {
        ReplyBody {
            bytes: self.bodies().form(code),
        }
    }

    pub fn record(self) -> &'a [u8]
        ensures { result.now ≡ record_bytes self.entry.file.now }
    {
        self.bodies().record()
    }
}
