//! Writing frames.

ghost use Rattle.std.specs.Prelude.{◌≡◌, ◌++◌, OnErr, OnOk, string_bytes};
ghost use Rattle.lus_devices.specs.Devices.{WritesBeginning, with_text};
ghost use Rattle.lus_framing.specs.Frames.{frame_text};

use lus_devices::{Failure, Sink, write_all};
use std::alloc::AllocError;

/// Appends a message in its frame.
pub fn push_frame(text: &mut String, message: &str) -> Result<(), AllocError>
    ensures { OnOk result (string_bytes text.new ≡ string_bytes text.old ++ frame_text message.now) }
{
    let length = message.len();
    write!(text, "Content-Length: {length}\r\n\r\n{message}")
}

/// Writes frames that were appended.
pub fn write_frame<S: Sink>(sink: &mut S, frames: &str) -> Result<(), Failure>
    ensures whole { OnOk result (S.written sink.new ≡ with_text (S.written sink.old) frames.now) }
    ensures beginning { OnErr result (WritesBeginning (S.written sink.old) (S.written sink.new) frames.now) }
{
    write_all(sink, frames.as_bytes())
}
