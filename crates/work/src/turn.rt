// What a decision comes to: work, and perhaps a change of the station's notes.
use crate::notes::Note;
use crate::work::Work;

#[derive(Clone, Copy)]
pub struct Turn {
    pub work: Work,
    pub note: Option<Note>,
}
