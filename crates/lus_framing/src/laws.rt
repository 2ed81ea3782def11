//! What frames keep.

ghost use Rattle.std.specs.Prelude.{◌≡◌, IfOk, Some, option_map};

use crate::error::FrameError;
use crate::reading::read_frame;
use crate::writing::push_frame;
use std::alloc::Global;

/// Writes a message in its frame and reads that: it is the message.
pub fn read_back(alloc: Global, message: &str) -> Result<Option<Vec<u8>>, FrameError>
    ensures { IfOk result (λ o. option_map (λ v. v.items) o ≡ Some message.now) }
{
    let mut frame = String::new(alloc);
    push_frame(&mut frame, message)?;
    let mut source = frame.as_bytes();
    let mut line = Vec::new(alloc);
    read_frame(alloc, &mut source, &mut line)
}
