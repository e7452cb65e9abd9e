// What the bytes of a line so far show.
ghost use Rattle.std.specs.Prelude.{◌≡◌};

/// A line so far.
#[derive(Clone, Copy)]
pub enum Line {
    /// Spaces and tabs alone.
    Spaces,
    /// Spaces, tabs and CR alone, and some CR.
    Blank,
    /// A slash after spaces and tabs.
    Slash,
    /// Two slashes after spaces and tabs.
    Comment,
    /// Anything else.
    Other,
}

impl Line {
    ghost use Rattle.kq_script_blocks.specs.Line.{line_with, shows_blank, shows_comment};

    pub fn with(self, byte: u8) -> Line
        ensures { result ≡ line_with self byte }
    {
        match self {
            Line::Spaces => match byte {
                b' ' | b'\t' => Line::Spaces,
                b'\r' => Line::Blank,
                b'/' => Line::Slash,
                _ => Line::Other,
            },
            Line::Blank => match byte {
                b' ' | b'\t' | b'\r' => Line::Blank,
                _ => Line::Other,
            },
            Line::Slash => match byte {
                b'/' => Line::Comment,
                _ => Line::Other,
            },
            Line::Comment => Line::Comment,
            Line::Other => Line::Other,
        }
    }

    pub fn is_blank(self) -> bool
        ensures { result ≡ shows_blank self }
    {
        matches!(self, Line::Spaces | Line::Blank)
    }

    pub fn is_comment(self) -> bool
        ensures { result ≡ shows_comment self }
    {
        matches!(self, Line::Comment)
    }
}
