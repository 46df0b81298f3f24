// What the lines of a log tell, one after another.
ghost use Rattle.std.specs.Prelude.{◌≡◌, IfOk, Some, None, Ok, Err, string_bytes};
ghost use Rattle.std.specs.Option.{option_map};
ghost use Rattle.frames.specs.Frames.{frame_value};
ghost use Rattle.words.specs.FrameWords.{frame_words};
ghost use Rattle.words.specs.Totals.{zero_totals};
ghost use Rattle.log_words.specs.Lines.{Explains, ExplainsAs, numbered, with_remark};
ghost use Rattle.log_words.specs.Remarks.{Says, remark, KindAfter};

use crate::remarks::{card_remark, setup_kind, setup_remark};
use frames::{Frame, LineFault, Refused, decode};
use settings::KindChoice;
use std::alloc::{AllocError, Global};
use words::{FrameInWords, RefusedInWords, Totals};

// What the lines of a log have told so far.
#[derive(Clone, Copy, Default)]
pub struct Log {
    pub totals: Totals,
    // the kind of the cards, once a SETUP line without a fault has named it
    pub kind: Option<KindChoice>,
}

impl Log {
    // Before the first line.
    pub fn new() -> Log
        ensures { result ≡ record { totals = zero_totals; kind = None } }
    {
        Log::default()
    }

    // The next line in words, and counted. Where memory is wanting, nothing is counted.
    pub fn explained(&mut self, heap: Global, line: &[u8]) -> Result<String, AllocError>
        ensures { Explains self.old line.now result self.new }
    {
        let bytes = decode(line);
        let asked = match &bytes {
            Ok(bytes) => Frame::try_from(bytes.as_slice()),
            Err(fault) => Err(*fault),
        };
        match asked {
            Ok(frame) => self.asks(heap, frame),
            Err(fault) => self.refused(heap, fault),
        }
    }

    // The next line as the frame that it asks, and counted.
    fn asks(&mut self, heap: Global, frame: Frame<'_>) -> Result<String, AllocError>
        ensures { ExplainsAs self.old (Ok (frame_value frame.entry)) result self.new }
    {
        let totals = self.totals.counted(None);
        let more = self.remark(heap, frame)?;
        let text = text(heap, totals.lines, frame, more)?;
        let kind = self.kind_after(frame);
        *self = Log { totals, kind };
        Ok(text)
    }

    // The next line as refused, and counted.
    fn refused(&mut self, heap: Global, fault: LineFault) -> Result<String, AllocError>
        ensures { ExplainsAs self.old (Err fault) result self.new }
    {
        let totals = self.totals.counted(Some(fault));
        let number = totals.lines;
        let words = RefusedInWords(Refused::from(fault));
        let text = format!(in heap; "{number}: {words}")?;
        self.totals = totals;
        Ok(text)
    }

    // What is said of a frame beyond its own words.
    fn remark(&self, heap: Global, frame: Frame<'_>) -> Result<Option<String>, AllocError>
        ensures { Says result (remark self.now.kind (frame_value frame.entry)) }
    {
        match frame {
            Frame::Setup(bytes) => setup_remark(heap, bytes),
            Frame::Fill { card, .. } => card_remark(heap, self.kind, card),
            _ => Ok(None),
        }
    }

    // The kind that is known after a frame.
    fn kind_after(&self, frame: Frame<'_>) -> Option<KindChoice>
        ensures { KindAfter self.now.kind (frame_value frame.entry) result }
    {
        match frame {
            Frame::Setup(bytes) => setup_kind(bytes).or(self.kind),
            _ => self.kind,
        }
    }
}

// A frame with its number, and a remark if there is one.
fn text(
    heap: Global,
    number: u64,
    frame: Frame<'_>,
    more: Option<String>,
) -> Result<String, AllocError>
    ensures { IfOk result (λ s. string_bytes s ≡ numbered number (with_remark (frame_words (frame_value frame.entry)) (option_map string_bytes more))) }
{
    let words = FrameInWords(frame);
    match more {
        None => format!(in heap; "{number}: {words}"),
        Some(more) => format!(in heap; "{number}: {words}: {more}"),
    }
}
