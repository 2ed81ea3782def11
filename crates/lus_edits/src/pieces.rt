//! Blanks and comments.

ghost use Rattle.std.specs.Prelude.{◌≡◌, not, ◌&&◌, ◌==◌, ◌+◌, ◌<◌, ◌^◌, length, IfSome, option_map};
ghost use Rattle.std.specs.List.{prefix_len};
ghost use Rattle.lus_syntax.specs.Gaps.{is_blank};
ghost use Rattle.lus_syntax.specs.Places.{is_feed};
ghost use Rattle.lus_syntax.specs.Reading.{block_len, Skips};

fn is_blank(b: u8) -> bool
    ensures { result ≡ is_blank b }
{
    b.is_ascii_whitespace()
}

/// The bytes up to the line's end.
fn line_len(bytes: &[u8]) -> usize
    ensures { result ≡ prefix_len (λ b. not (is_feed b)) bytes.now }
{
    bytes.iter().take_while(|b| **b != b'\n').count()
}

fn closes(a: u8, b: u8, close: u8) -> bool
    ensures { result ≡ (a == 42 && b == close) }
{
    a == b'*' && b == close
}

/// The bytes of a comment behind its opening, with the star and the byte that close it.
fn block_len(bytes: &[u8], close: u8) -> Option<usize>
    ensures { result ≡ block_len close bytes.now }
{
    for i in 1..bytes.len() {
        if closes(bytes[i - 1], bytes[i], close) {
            return Some(i + 1);
        }
    }
    None
}

/// The bytes of a comment that is opened by two bytes, before this body.
fn block(body: &[u8], close: u8) -> Option<usize>
    requires { length body.now + 2 < 2 ^ 64 }
    ensures { result ≡ option_map (λ n. n + 2) (block_len close body.now) }
{
    match block_len(body, close) {
        None => None,
        Some(n) => Some(n + 2),
    }
}

/// The length of the blank or of the comment that stands here, if one does.
pub fn piece_len(bytes: &[u8]) -> Option<usize>
    ensures { IfSome result (λ n. Skips bytes.now n) }
{
    match bytes {
        [b'-', b'-', body @ ..] => Some(2 + line_len(body)),
        [b'/', b'*', body @ ..] => block(body, b'/'),
        [b'(', b'*', body @ ..] => block(body, b')'),
        [b, ..] if is_blank(*b) => Some(1),
        _ => None,
    }
}
