// Bytes as a card in words.
ghost use Rattle.std.specs.Prelude.{◌≡◌, IfOk, string_bytes};
ghost use Rattle.card_words.specs.FaultWords.{card_told};

use crate::{BadCard, CardInWords, Told};
use std::alloc::{AllocError, Global};

// The card of the kind `C` that these bytes are, or what is wrong with them.
pub fn card_in_words<C: Told>(heap: Global, bytes: &[u8]) -> Result<String, AllocError>
    ensures words { IfOk result (λ text. string_bytes text ≡ card_told C.name C.size C.words C.bad_field C.reading bytes.now) }
{
    match C::read(bytes) {
        Ok(card) => CardInWords(card).to_string(heap),
        Err(fault) => BadCard::<C>::new(fault, bytes.len()).to_string(heap),
    }
}
