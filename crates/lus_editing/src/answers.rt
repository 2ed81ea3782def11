//! Answers to requests.

ghost use Rattle.std.specs.Prelude.{◌≡◌, ◌++◌, IfOk, OnOk, string_bytes};
ghost use Rattle.lus_editing.specs.Answers.{answer_text, error_text, fault_text, given_text, problem_code, problem_message, result_text};

use std::alloc::{AllocError, Global};

/// Why a request isn't done.
#[derive(Clone, Copy, PartialEq, Eq)]
pub(crate) enum Problem {
    /// The message is no JSON.
    Parse,
    /// Its head doesn't say how many bytes it has.
    Head,
    /// It has too many bytes.
    Long,
    /// It is no request, or one that comes behind `shutdown`.
    Request,
    /// There is no such method.
    Method,
    /// The method can't take what it is called with.
    Parameters,
    /// The request comes before `initialize`.
    Early,
    /// There is no name to replace.
    NoName,
    /// The new name is none.
    NotAName,
    /// Under the new name the program would be another one.
    OtherProgram,
}

impl Problem {
    /// Its code, without the minus before it.
    fn code(self) -> u32
        ensures { result ≡ problem_code self }
    {
        match self {
            Problem::Parse | Problem::Head => 32700,
            Problem::Request | Problem::Long => 32600,
            Problem::Method => 32601,
            Problem::Parameters => 32602,
            Problem::Early => 32002,
            Problem::NoName | Problem::NotAName | Problem::OtherProgram => 32803,
        }
    }

    /// What it is in words.
    fn message(self) -> &'static str
        ensures { result.now ≡ problem_message self }
    {
        match self {
            Problem::Parse => "the message is no JSON",
            Problem::Head => "the head of the message doesn't say how many bytes it has",
            Problem::Long => "the message has more than 16777216 bytes",
            Problem::Request => "the message is no request that can be done now",
            Problem::Method => "this server has no such method",
            Problem::Parameters => "the method can't take these parameters",
            Problem::Early => "the request comes before `initialize`",
            Problem::NoName => "no declared name stands here",
            Problem::NotAName => "this is no name, or a word of the language",
            Problem::OtherProgram => "under this name the program would not be the same",
        }
    }
}

/// What each answer to the request of an id begins with.
fn begun(alloc: Global, id: &str) -> Result<String, AllocError>
    ensures { IfOk result (λ t. string_bytes t ≡ answer_text id.now) }
{
    format!(in alloc; "{{\"jsonrpc\":\"2.0\",\"id\":{id},")
}

/// Appends why a request isn't done.
fn push_error(text: &mut String, code: u32, message: &str) -> Result<(), AllocError>
    ensures { OnOk result (string_bytes text.new ≡ string_bytes text.old ++ error_text code message.now) }
{
    write!(
        text,
        "\"error\":{{\"code\":-{code},\"message\":\"{message}\"}}}}"
    )
}

/// The answer to the request of an id that it isn't done, and why.
pub(crate) fn fault(alloc: Global, id: &str, problem: Problem) -> Result<String, AllocError>
    ensures { IfOk result (λ t. string_bytes t ≡ fault_text id.now problem) }
{
    let code = problem.code();
    let message = problem.message();
    let mut text = begun(alloc, id)?;
    push_error(&mut text, code, message)?;
    Ok(text)
}

/// Appends what a request gives.
fn push_result(text: &mut String, given: &str) -> Result<(), AllocError>
    ensures { OnOk result (string_bytes text.new ≡ string_bytes text.old ++ result_text given.now) }
{
    write!(text, "\"result\":{given}}}")
}

/// The answer to the request of an id with what it gives.
pub(crate) fn result(alloc: Global, id: &str, given: &str) -> Result<String, AllocError>
    ensures { IfOk result (λ t. string_bytes t ≡ given_text id.now given.now) }
{
    let mut text = begun(alloc, id)?;
    push_result(&mut text, given)?;
    Ok(text)
}
