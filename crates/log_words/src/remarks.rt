// What a SETUP line and a card tell beyond the words of their frame.
ghost use Rattle.std.specs.Prelude.{None};
ghost use Rattle.settings.specs.Faults.{first_fault};
ghost use Rattle.log_words.specs.Remarks.{Says, setup_remark, card_remark, TellsKind};

use card_words::card_in_words;
use cards::{Recipe, Slip};
use frames::SetupBytes;
use settings::{KindChoice, Setup};
use std::alloc::{AllocError, Global};

// The first byte of a SETUP line that is out of its limits.
pub(crate) fn setup_remark(heap: Global, bytes: SetupBytes) -> Result<Option<String>, AllocError>
    ensures { Says result (setup_remark (first_fault bytes)) }
{
    let Err(byte) = Setup::try_from(&bytes) else {
        return Ok(None);
    };
    let place = byte.place();
    Ok(Some(format!(in heap; "refused 3 at byte {place}: {byte}")?))
}

// The card in words, or what is wrong with it, where the kind is known.
pub(crate) fn card_remark(
    heap: Global,
    kind: Option<KindChoice>,
    card: &[u8],
) -> Result<Option<String>, AllocError>
    ensures { Says result (card_remark kind card.now) }
{
    let Some(kind) = kind else {
        return Ok(None);
    };
    let words = match kind {
        KindChoice::ChainOfSlips => card_in_words::<Slip>(heap, card)?,
        KindChoice::BookOfRecipes => card_in_words::<Recipe>(heap, card)?,
    };
    Ok(Some(words))
}

// The kind that a SETUP line tells, if it has no fault.
pub(crate) fn setup_kind(bytes: SetupBytes) -> Option<KindChoice>
    ensures { TellsKind (first_fault bytes) bytes.kind None result }
{
    Setup::try_from(&bytes).ok().map(|setup| setup.kind)
}
