// What a frame asks, in words.
ghost use Rattle.std.specs.Prelude.{Some};
ghost use Rattle.frames.specs.Frames.{frame_value};
ghost use Rattle.words.specs.FrameWords.{frame_words, sizes_words, choices_words, spot_words, name_words};

use crate::ByteCount;
use frames::{Frame, SetupBytes, SpotBytes};
use std::fmt;

// FF, by which the lines themselves say none: no record as old or new, the roots as a container.
const NONE: u8 = 0xFF;

// A record that is named, or none.
#[derive(Clone, Copy)]
pub struct NameInWords(pub u8);

impl fmt::Display for NameInWords {
    ghost output = { λ w. Some (name_words w.0) };

    fn fmt<W: fmt::Write>(&self, f: &mut fmt::Formatter<W>) -> fmt::Result {
        match self.0 {
            NONE => write!(f, "none"),
            node => write!(f, "record {node}"),
        }
    }
}

// A link of a record, or a root.
#[derive(Clone, Copy)]
pub struct SpotInWords(pub SpotBytes);

impl fmt::Display for SpotInWords {
    ghost output = { λ w. Some (spot_words w.0) };

    fn fmt<W: fmt::Write>(&self, f: &mut fmt::Formatter<W>) -> fmt::Result {
        match self.0 {
            SpotBytes {
                container: NONE,
                index,
            } => write!(f, "root {index}"),
            SpotBytes { container, index } => write!(f, "link {index} of record {container}"),
        }
    }
}

// How much of everything a SETUP frame asks for.
#[derive(Clone, Copy)]
pub struct SizesInWords(pub SetupBytes);

impl fmt::Display for SizesInWords {
    ghost output = { λ w. Some (sizes_words w.0) };

    fn fmt<W: fmt::Write>(&self, f: &mut fmt::Formatter<W>) -> fmt::Result {
        let SetupBytes {
            stations,
            slots,
            records,
            roots,
            ..
        } = self.0;
        write!(
            f,
            "stations {stations}, slots a station {slots}, records {records}, roots {roots}"
        )
    }
}

// The thresholds, the kind and the pool that a SETUP frame asks for.
#[derive(Clone, Copy)]
pub struct ChoicesInWords(pub SetupBytes);

impl fmt::Display for ChoicesInWords {
    ghost output = { λ w. Some (choices_words w.0) };

    fn fmt<W: fmt::Write>(&self, f: &mut fmt::Formatter<W>) -> fmt::Result {
        let SetupBytes {
            t1,
            t2,
            kind,
            pool,
            ..
        } = self.0;
        write!(f, "T1 {t1}, T2 {t2}, kind {kind}, pool {pool}")
    }
}

// What the whole frame asks.
#[derive(Clone, Copy)]
pub struct FrameInWords<'a>(pub Frame<'a>);

impl<'a> fmt::Display for FrameInWords<'a> {
    ghost output = { λ w. Some (frame_words (frame_value w.0)) };

    fn fmt<W: fmt::Write>(&self, f: &mut fmt::Formatter<W>) -> fmt::Result {
        match self.0 {
            Frame::Setup(bytes) => {
                let sizes = SizesInWords(bytes);
                let choices = ChoicesInWords(bytes);
                write!(f, "set up {sizes}, {choices}")
            }
            Frame::Deref { station, spot } => {
                let spot = SpotInWords(spot);
                write!(f, "station {station} follows {spot}")
            }
            Frame::Release { station, node } => write!(
                f,
                "station {station} releases record {node}"
            ),
            Frame::Cas {
                station,
                spot,
                old,
                new,
            } => {
                let spot = SpotInWords(spot);
                let old = NameInWords(old);
                let new = NameInWords(new);
                write!(f, "station {station} swaps {spot} from {old} to {new}")
            }
            Frame::Store { station, spot, new } => {
                let spot = SpotInWords(spot);
                let new = NameInWords(new);
                write!(f, "station {station} stores {new} in {spot}")
            }
            Frame::New { station } => write!(f, "station {station} takes a new record"),
            Frame::Delete { station, node } => write!(
                f,
                "station {station} withdraws record {node}"
            ),
            Frame::Step { station } => write!(f, "station {station} makes one step"),
            Frame::Fill {
                station,
                node,
                card,
            } => {
                let size = ByteCount(card.len());
                write!(
                    f,
                    "station {station} fills record {node} with a card of {size}"
                )
            }
            Frame::Read { station, node } => write!(f, "station {station} reads record {node}"),
        }
    }
}
