// A book: each record has three links, to the next, to its origin and to its replacement.
ghost use Rattle.std.specs.Prelude.{◌≡◌, ℕ};
ghost use Rattle.layouts.specs.Books.{link_number, link_following, book_follow, DecodesLink};
ghost use Rattle.std.proofs.Common.{rules};

use crate::layout::Layout;

const POSITIONS: u8 = 3;

#[derive(Clone, Copy, PartialEq, Eq, Debug)]
pub enum BookLink {
    Next = 0,
    Origin = 1,
    Replacement = 2,
}

// A number that is no link of a book. A type of its own, beside that of settings: this crate stands on no other.
#[derive(Clone, Copy, PartialEq, Eq, Debug)]
pub struct UnknownLink {
    pub number: u8,
}

impl TryFrom<u8> for BookLink {
    type Error = UnknownLink;

    ghost try_from_gives = { DecodesLink };

    fn try_from(number: u8) -> Result<BookLink, UnknownLink> {
        match number {
            0 => Ok(BookLink::Next),
            1 => Ok(BookLink::Origin),
            2 => Ok(BookLink::Replacement),
            _ => Err(UnknownLink { number }),
        }
    }
}

impl From<BookLink> for u8 {
    ghost from_gives = { λ link number. number ≡ link_number link };

    fn from(link: BookLink) -> u8 {
        link as u8
    }
}

impl BookLink {
    // The link by which a search goes on from a record that was found withdrawn.
    pub fn following(self) -> BookLink
        ensures name { result ≡ link_following self }
        ensures number { link_number result ≡ book_follow (link_number self) }
    {
        match self {
            BookLink::Next => BookLink::Next,
            BookLink::Origin | BookLink::Replacement => BookLink::Replacement,
        }
    }
}

#[derive(Clone, Copy, PartialEq, Eq, Debug)]
pub struct Book;

impl Layout for Book {
    ghost positions = { 3 };

    ghost follow = { book_follow };

    ghost some = { Prim.search rules };

    ghost few = { Prim.search rules };

    ghost inside = { Prim.search rules };

    fn positions() -> u8 {
        POSITIONS
    }

    fn follow(x: u8) -> Option<u8> {
        let link = BookLink::try_from(x).ok()?;
        Some(link.following().into())
    }
}
