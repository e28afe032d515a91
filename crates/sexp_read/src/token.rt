//! What a single byte does: whether it may stand in a text, and its class outside of comments.

ghost use Rattle.std.specs.Prelude.{◌≡◌};
ghost use Rattle.sexp_read.specs.Token.{is_text_byte, class_of};

/// What a byte does outside a comment.
#[derive(Clone, Copy, Debug)]
pub enum Class {
    /// A space, a tab or a carriage return: it ends a word.
    Blank,
    /// A line feed: it ends a word or a comment.
    LineFeed,
    /// It ends a word and begins a comment.
    Semicolon,
    /// It ends a word and begins a list.
    Left,
    /// It ends a word and a list.
    Right,
    /// Any other byte: it belongs to a word.
    Letter,
}

/// Whether a byte may stand in a text.
pub fn is_text_byte(byte: u8) -> bool
    ensures { result ≡ is_text_byte byte }
{
    matches!(byte, b' '..=b'~' | b'\t' | b'\n' | b'\r')
}

pub fn class_of(byte: u8) -> Class
    ensures { result ≡ class_of byte }
{
    match byte {
        b'(' => Class::Left,
        b')' => Class::Right,
        b';' => Class::Semicolon,
        b'\n' => Class::LineFeed,
        b' ' | b'\t' | b'\r' => Class::Blank,
        _ => Class::Letter,
    }
}
