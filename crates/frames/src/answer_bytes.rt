// Answers to bytes and bytes to answers.
ghost use Rattle.std.specs.Prelude.{◌≡◌};
ghost use Rattle.std.specs.Option.{option_map};
ghost use Rattle.std.specs.Result.{result_ok};
ghost use Rattle.frames.specs.Answers.{answer_value, answer_bytes, answer_of, granted_of, refused_of, REFUSED};
ghost use Rattle.frames.specs.Hexadecimal.{FitsLine};

use crate::answer::{Answer, NoAnswer};
use crate::line::LineBytes;
use crate::refusal::{Refusal, Refused};

impl Answer<'_> {
    // The bytes of the answer, unless its card is too long for a line.
    pub fn bytes(self) -> Option<LineBytes>
        ensures { FitsLine (answer_bytes (answer_value self.entry)) result }
    {
        match self {
            Answer::Accepted => LineBytes::joined(&[0x00], &[]),
            Answer::Working => LineBytes::joined(&[0x00, 0x00], &[]),
            Answer::Finished(result) => LineBytes::joined(&[0x00, 0x01, result], &[]),
            Answer::Card(card) => LineBytes::joined(&[0x00], card),
            Answer::Refused(Refused { why, place }) => LineBytes::joined(
                &[u8::from(why), u8::from(why.layer()), place],
                &[],
            ),
        }
    }
}

// The answer that the bytes of a line are. A card is known by its three bytes or more.
impl<'a> TryFrom<&'a [u8]> for Answer<'a> {
    type Error = NoAnswer;

    ghost try_from_gives = { λ bytes r. option_map answer_value (result_ok r) ≡ answer_of bytes.now };

    fn try_from(bytes: &'a [u8]) -> Result<Answer<'a>, NoAnswer> {
        match bytes {
            [0x00, rest @ ..] => granted(rest).ok_or(NoAnswer),
            &[number, layer, place] => refused(number, layer, place).ok_or(NoAnswer),
            _ => Err(NoAnswer),
        }
    }
}

fn granted<'a>(rest: &'a [u8]) -> Option<Answer<'a>>
    ensures { option_map answer_value result ≡ granted_of rest.now }
{
    match rest {
        [] => Some(Answer::Accepted),
        [0x00] => Some(Answer::Working),
        &[0x01, result] => Some(Answer::Finished(result)),
        [_, _, _, ..] => Some(Answer::Card(rest)),
        _ => None,
    }
}

fn refused<'a>(number: u8, layer: u8, place: u8) -> Option<Answer<'a>>
    ensures { option_map answer_value result ≡ option_map REFUSED (refused_of number layer place) }
{
    let why = Refusal::try_from(number).ok()?;
    (u8::from(why.layer()) == layer).then_some(Answer::Refused(Refused { why, place }))
}
