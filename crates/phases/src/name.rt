// The names of the lines, as the log shows them.
// Uses nothing but the standard library.
ghost use Rattle.std.specs.Prelude.{◌≡◌, Some};
ghost use Rattle.phases.specs.Names.{line_name};

use std::fmt;

#[derive(Clone, Copy, Debug, PartialEq, Eq)]
pub enum Line {
    L13,
    L1,
    L3a,
    L3b,
    L7,
    L8,
    L9,
    L11,
    S6,
    S9,
}

impl Line {
    // The name of the line, for those who want it as a text; `Display` writes it.
    pub fn name(self) -> &'static str
        ensures { result.now ≡ line_name self }
    {
        match self {
            Line::L13 => "13",
            Line::L1 => "1",
            Line::L3a => "3a",
            Line::L3b => "3b",
            Line::L7 => "7",
            Line::L8 => "8",
            Line::L9 => "9",
            Line::L11 => "11",
            Line::S6 => "S6",
            Line::S9 => "S9",
        }
    }
}

// A line is shown by its name.
impl fmt::Display for Line {
    ghost output = { λ line. Some (line_name line) };

    fn fmt<W: fmt::Write>(&self, f: &mut fmt::Formatter<W>) -> fmt::Result {
        f.write_str(self.name())
    }
}
