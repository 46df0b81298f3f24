// What a SETUP line names by number: a card kind with its links, and a pool.
ghost use Rattle.settings.specs.Choices.{kind_number, pool_number, NamesKind, NamesPool, Decodes};
ghost use Rattle.std.specs.Prelude.{◌≡◌};

#[derive(Clone, Copy, PartialEq, Eq, Debug)]
pub enum KindChoice {
    ChainOfSlips = 0,
    BookOfRecipes = 1,
}

#[derive(Clone, Copy, PartialEq, Eq, Debug)]
pub enum PoolChoice {
    Stack = 0,
    Ring = 1,
}

// A number that names no choice.
#[derive(Clone, Copy, PartialEq, Eq, Debug)]
pub struct UnknownChoice {
    pub number: u8,
}

impl TryFrom<u8> for KindChoice {
    type Error = UnknownChoice;

    ghost try_from_gives = { Decodes NamesKind };

    fn try_from(number: u8) -> Result<KindChoice, UnknownChoice> {
        match number {
            0 => Ok(KindChoice::ChainOfSlips),
            1 => Ok(KindChoice::BookOfRecipes),
            _ => Err(UnknownChoice { number }),
        }
    }
}

impl From<KindChoice> for u8 {
    ghost from_gives = { λ kind number. number ≡ kind_number kind };

    fn from(kind: KindChoice) -> u8 {
        kind as u8
    }
}

impl TryFrom<u8> for PoolChoice {
    type Error = UnknownChoice;

    ghost try_from_gives = { Decodes NamesPool };

    fn try_from(number: u8) -> Result<PoolChoice, UnknownChoice> {
        match number {
            0 => Ok(PoolChoice::Stack),
            1 => Ok(PoolChoice::Ring),
            _ => Err(UnknownChoice { number }),
        }
    }
}

impl From<PoolChoice> for u8 {
    ghost from_gives = { λ pool number. number ≡ pool_number pool };

    fn from(pool: PoolChoice) -> u8 {
        pool as u8
    }
}
