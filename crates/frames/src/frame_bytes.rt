// Bytes to frames and frames to bytes.
ghost use Rattle.std.specs.Prelude.{◌≡◌};
ghost use Rattle.frames.specs.Frames.{frame_value, frame_bytes, setup_of, by_first, Sorts, SortsAs};
ghost use Rattle.frames.specs.Hexadecimal.{FitsLine};

use crate::frame::{Frame, SetupBytes, SpotBytes};
use crate::line::LineBytes;
use crate::refusal::LineFault;

// The first byte of each frame: constants, since the slice patterns that sort a line name them.
const SETUP: u8 = 0x00;

const DEREF: u8 = 0x01;

const RELEASE: u8 = 0x02;

const CAS: u8 = 0x03;

const STORE: u8 = 0x04;

const NEW: u8 = 0x05;

const DELETE: u8 = 0x06;

const STEP: u8 = 0x10;

const FILL: u8 = 0x11;

const READ: u8 = 0x12;

// The frame that the bytes of a line are.
impl<'a> TryFrom<&'a [u8]> for Frame<'a> {
    type Error = LineFault;

    ghost try_from_gives = { λ bytes r. Sorts bytes.now r };

    fn try_from(bytes: &'a [u8]) -> Result<Frame<'a>, LineFault> {
        match bytes {
            [SETUP, rest @ ..] => setup_frame(rest),
            [op, station, rest @ ..] => of_station(*op, *station, rest),
            _ => Err(LineFault::Shape),
        }
    }
}

// The eight bytes after the first of SETUP.
fn setup_frame<'a>(rest: &'a [u8]) -> Result<Frame<'a>, LineFault>
    ensures { SortsAs (setup_of rest.now) result }
{
    let &[stations, slots, records, roots, t1, t2, kind, pool] = rest else {
        return Err(LineFault::Shape);
    };
    Ok(Frame::Setup(SetupBytes {
        stations,
        slots,
        records,
        roots,
        t1,
        t2,
        kind,
        pool,
    }))
}

// The bytes after the station of any other frame.
fn of_station<'a>(op: u8, station: u8, rest: &'a [u8]) -> Result<Frame<'a>, LineFault>
    ensures { SortsAs (by_first op station rest.now) result }
{
    match (op, rest) {
        (DEREF, &[container, index]) => {
            let spot = SpotBytes { container, index };
            Ok(Frame::Deref { station, spot })
        }
        (RELEASE, &[node]) => Ok(Frame::Release { station, node }),
        (CAS, &[container, index, old, new]) => {
            let spot = SpotBytes { container, index };
            Ok(Frame::Cas {
                station,
                spot,
                old,
                new,
            })
        }
        (STORE, &[container, index, new]) => {
            let spot = SpotBytes { container, index };
            Ok(Frame::Store { station, spot, new })
        }
        (NEW, []) => Ok(Frame::New { station }),
        (DELETE, &[node]) => Ok(Frame::Delete { station, node }),
        (STEP, []) => Ok(Frame::Step { station }),
        (FILL, [node, card @ ..]) => Ok(Frame::Fill {
            station,
            node: *node,
            card,
        }),
        (READ, &[node]) => Ok(Frame::Read { station, node }),
        _ => Err(LineFault::Shape),
    }
}

impl Frame<'_> {
    // The bytes of the frame, unless its card is too long for a line.
    pub fn bytes(self) -> Option<LineBytes>
        ensures { FitsLine (frame_bytes (frame_value self.entry)) result }
    {
        match self {
            Frame::Setup(s) => LineBytes::joined(
                &[
                    SETUP, s.stations, s.slots, s.records, s.roots, s.t1, s.t2, s.kind, s.pool,
                ],
                &[],
            ),
            Frame::Deref { station, spot } => LineBytes::joined(
                &[DEREF, station, spot.container, spot.index],
                &[],
            ),
            Frame::Release { station, node } => LineBytes::joined(&[RELEASE, station, node], &[]),
            Frame::Cas {
                station,
                spot,
                old,
                new,
            } => LineBytes::joined(&[CAS, station, spot.container, spot.index, old, new], &[]),
            Frame::Store { station, spot, new } => LineBytes::joined(
                &[STORE, station, spot.container, spot.index, new],
                &[],
            ),
            Frame::New { station } => LineBytes::joined(&[NEW, station], &[]),
            Frame::Delete { station, node } => LineBytes::joined(&[DELETE, station, node], &[]),
            Frame::Step { station } => LineBytes::joined(&[STEP, station], &[]),
            Frame::Fill {
                station,
                node,
                card,
            } => LineBytes::joined(&[FILL, station, node], card),
            Frame::Read { station, node } => LineBytes::joined(&[READ, station, node], &[]),
        }
    }
}
