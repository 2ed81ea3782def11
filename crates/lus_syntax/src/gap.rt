//! Blanks and comments.

ghost use Rattle.std.specs.Prelude.{◌≡◌, not, ◌&&◌, ◌==◌, ◌+◌, ◌<◌, ◌^◌, length};
ghost use Rattle.std.specs.List.{prefix_len};
ghost use Rattle.lus_syntax.specs.Gaps.{is_blank};
ghost use Rattle.lus_syntax.specs.Reading.{block_len, block_skip, IsSkip};
ghost use Rattle.lus_syntax.specs.Places.{is_feed};

/// What stands at a place between tokens.
#[derive(Clone, Copy)]
pub(crate) enum Skip {
    /// Neither a blank nor a comment.
    Nothing,
    /// A comment that nothing closes.
    Open,
    /// A blank or a comment of so many bytes.
    Bytes(usize),
}

const FORM_FEED: u8 = 12;

fn is_blank(b: u8) -> bool
    ensures { result ≡ is_blank b }
{
    b == b' ' || b == b'\t' || b == b'\n' || b == b'\r' || b == FORM_FEED
}

// The bytes up to the line's end.
fn line_len(bytes: &[u8]) -> usize
    ensures { result ≡ prefix_len (λ b. not (is_feed b)) bytes.now }
{
    bytes.iter().take_while(|b| **b != b'\n').count()
}

fn closes(a: u8, b: u8, close: u8) -> bool
    ensures { result ≡ (a == 42 && b == close) }
{
    a == b'*' && b == close
}

// The bytes of a comment behind its opening, with the star and the byte that close it.
fn block_len(bytes: &[u8], close: u8) -> Option<usize>
    ensures { result ≡ block_len close bytes.now }
{
    for i in 1..bytes.len() {
        if closes(bytes[i - 1], bytes[i], close) {
            return Some(i + 1);
        }
    }
    None
}

// What stands where a comment is opened by two bytes, before this body.
fn block(body: &[u8], close: u8) -> Skip
    requires { length body.now + 2 < 2 ^ 64 }
    ensures { result ≡ block_skip (block_len close body.now) }
{
    match block_len(body, close) {
        None => Skip::Open,
        Some(n) => Skip::Bytes(n + 2),
    }
}

/// What stands here.
pub(crate) fn skip_at(bytes: &[u8]) -> Skip
    ensures { IsSkip bytes.now result }
{
    match bytes {
        [b'-', b'-', body @ ..] => Skip::Bytes(2 + line_len(body)),
        [b'/', b'*', body @ ..] => block(body, b'/'),
        [b'(', b'*', body @ ..] => block(body, b')'),
        [b, ..] if is_blank(*b) => Skip::Bytes(1),
        _ => Skip::Nothing,
    }
}
