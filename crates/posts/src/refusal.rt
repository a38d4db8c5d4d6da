//! Why a post is refused.

ghost use Rattle.std.specs.Prelude.{◌≡◌};

/// Why a post is refused.
#[derive(Clone, Copy, Debug, PartialEq, Eq)]
pub enum Refusal {
    /// It names another host, or comes from a page of another host.
    Foreign,
    /// Its line is longer than any that a desk takes.
    TooLong,
    /// It lacks a position, a nonce or a tag, or its decrypted text isn't a line.
    Malformed,
    /// Its nonce isn't out: it was never given, or is used or forgotten.
    NotOut,
    /// Its tag isn't made with the secret.
    WrongTag,
    /// Its line would end the desk.
    Ends,
    /// The desk is at another position.
    Elsewhere,
    /// As many lines wait as may.
    Busy,
}

impl Refusal {
    ghost use Rattle.posts.specs.Posts.{status_of};

    /// Returns the HTTP status of the answer.
    pub fn status(self) -> u16
        ensures { result ≡ status_of self }
    {
        match self {
            Refusal::Malformed => 400,
            Refusal::Foreign | Refusal::WrongTag | Refusal::Ends => 403,
            Refusal::Elsewhere => 409,
            Refusal::NotOut => 410,
            Refusal::TooLong => 413,
            Refusal::Busy => 503,
        }
    }
}
