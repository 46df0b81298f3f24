// How many lines there were, and how many of them were frames or refused.
ghost use Rattle.std.specs.Prelude.{◌≡◌, Some};
ghost use Rattle.words.specs.Totals.{zero_totals, counted, totals_words};

use frames::LineFault;
use std::fmt;

// A count that has reached the largest number stays there.
#[derive(Clone, Copy, PartialEq, Eq, Default, Debug)]
pub struct Totals {
    pub lines: u64,
    pub frames: u64,
    pub bad_digits: u64,
    pub bad_shapes: u64,
}

impl Totals {
    // Before the first line.
    pub fn new() -> Totals
        ensures { result ≡ zero_totals }
    {
        Totals::default()
    }

    // The totals with one line more: a frame, or refused for `fault`.
    pub fn counted(self, fault: Option<LineFault>) -> Totals
        ensures { result ≡ counted self fault }
    {
        let lines = self.lines.saturating_add(1);
        match fault {
            None => Totals {
                lines,
                frames: self.frames.saturating_add(1),
                ..self
            },
            Some(LineFault::Digits) => Totals {
                lines,
                bad_digits: self.bad_digits.saturating_add(1),
                ..self
            },
            Some(LineFault::Shape) => Totals {
                lines,
                bad_shapes: self.bad_shapes.saturating_add(1),
                ..self
            },
        }
    }
}

impl fmt::Display for Totals {
    ghost output = { λ t. Some (totals_words t) };

    fn fmt<W: fmt::Write>(&self, f: &mut fmt::Formatter<W>) -> fmt::Result {
        let Totals {
            lines,
            frames,
            bad_digits,
            bad_shapes,
        } = *self;
        write!(
            f,
            "total: lines {lines}, frames {frames}, refused with 1: {bad_digits}, refused with 2: {bad_shapes}"
        )
    }
}
