// What a station knows without an access: what it sees, and what it has noted.
use crate::notes::Notes;
use crate::sight::Sight;

// Clauses speak of `seen_by` and `noted_by` of it: an `impl Model` was tried, and a model's value cannot hold functions.
#[derive(Clone, Copy)]
pub(crate) struct Known<'a> {
    pub(crate) sight: &'a Sight,
    pub(crate) notes: &'a Notes,
}
