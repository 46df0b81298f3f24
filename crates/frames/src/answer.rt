// What is answered to a frame.
use crate::refusal::Refused;

// A card's bytes are borrowed from whoever wrote them.
#[derive(Clone, Copy, PartialEq, Eq, Debug)]
pub enum Answer<'a> {
    Accepted,
    Working,
    Finished(u8),
    Card(&'a [u8]),
    Refused(Refused),
}

// Bytes that are no answer.
#[derive(Clone, Copy, PartialEq, Eq, Debug)]
pub struct NoAnswer;
