//! Lines of a certificate, and certificates as lists of lines.
ghost use Rattle.std.specs.Prelude.{◌≡◌};
ghost use Rattle.refutation.specs.Lines.{AreAscending};

use crate::short_path::ShortPath;
use algebra::Basic;
use paths::MethodId;
use std::marker::Model;

/// Where these paths are held, this method is at least this basic. The paths ascend.
#[derive(Drop)]
pub struct Line {
    pub method: MethodId,
    pub found: Basic,
    pub held: Vec<ShortPath>,
}

impl Model for Line {
    ghost use Rattle.refutation.specs.Lines.{LineData};

    ghost Value = { LineData };

    ghost view = { λ l. record { method = l.method; found = l.found; held = l.held.items } };
}

/// Lines in the order in which each follows from those before it. The paths of each ascend strictly.
#[derive(Drop)]
pub struct Blame {
    pub lines: Vec<Line>,
}

impl Model for Blame {
    ghost use Rattle.std.specs.Prelude.{List};
    ghost use Rattle.refutation.specs.Lines.{LineData, AreAscending};

    ghost Value = { List LineData };

    ghost view = { λ b. b.lines.items };

    ghost invariant = { λ b. AreAscending b.lines.items };
}

impl Blame {
    /// Says of any certificate that there is that the paths of each line ascend. Does nothing.
    pub fn ascends(&self)
        ensures { AreAscending self.now }
    {
        // Only the proof needs this: the invariant of a struct is known where one of its fields is used.
        let _ = &self.lines;
    }

    /// The lines.
    pub fn lines(&self) -> &[Line]
        ensures { result.now ≡ self.now }
    {
        self.lines.as_slice()
    }
}
