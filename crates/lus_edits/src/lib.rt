//! What an edit of a source keeps: its tokens, its tokens but for one name, and its comments.
#![tactic(auto)]

mod comments;
mod gaps;
mod kinds;
mod pieces;
mod texts;

pub use comments::comments_of;
pub use pieces::piece_len;
pub use texts::{keeps_comments, keeps_tokens, renames_tokens};
