// Cards at their limits.
#![tactic(auto)]

#[cfg(test)]
mod tests {
    use card_words::card_in_words;
    use cards::{Card, CardFault, RECIPE_BYTES, Recipe, ShelfFault, Slip, blank_cards, fill, read};
    use std::test::Fail;

    #[test]
    fn slips_at_their_limits(rt: HostRuntime) -> Result<(), Fail> {
        let largest = Slip::read(&[255, 255, 255, 255, 0, 250])?;
        assert_eq!(rt; largest.order(), 4294967295);
        assert_eq!(rt; largest.can_tenths(), 250);
        assert_eq!(rt;
            Slip::read(&[0, 0, 0, 12, 0, 251]),
            Err(CardFault::Field(4))
        );
        assert_eq!(rt; Slip::read(&[0, 0, 0, 12, 1, 0]), Err(CardFault::Field(4)));
        assert_eq!(rt; Slip::read(&[0, 0, 0, 12, 0]), Err(CardFault::Length));
        assert_eq!(rt; Slip::read(&[0, 0, 0, 12, 1, 0, 0]), Err(CardFault::Length));
        assert_eq!(rt; Slip::read(&[]), Err(CardFault::Length));
        assert_eq!(rt; Slip::new(12, 251), Err(CardFault::Field(4)));
        assert_eq!(rt;
            Slip::new(1, 25)?.write().as_slice(),
            [0, 0, 0, 1, 0, 25].as_slice()
        );
        Ok(())
    }

    // a recipe's bytes with two of its amounts set
    fn recipe_bytes(third: u16, last: u16) -> [u8; RECIPE_BYTES] {
        let mut bytes = [0; RECIPE_BYTES];
        bytes[4..6].copy_from_slice(&third.to_be_bytes());
        bytes[22..24].copy_from_slice(&last.to_be_bytes());
        bytes
    }

    #[test]
    fn recipes_at_their_limits(rt: HostRuntime) -> Result<(), Fail> {
        let largest = Recipe::read(&recipe_bytes(9999, 9999))?;
        assert_eq!(rt; largest.amount(2), Some(9999));
        assert_eq!(rt; largest.amount(11), Some(9999));
        assert_eq!(rt; largest.amount(12), None);
        assert_eq!(rt;
            Recipe::read(&recipe_bytes(10000, 0)),
            Err(CardFault::Field(4))
        );
        assert_eq!(rt;
            Recipe::read(&recipe_bytes(0, 10000)),
            Err(CardFault::Field(22))
        );
        assert_eq!(rt;
            Recipe::read(&recipe_bytes(65535, 65535)),
            Err(CardFault::Field(4))
        );
        assert_eq!(rt;
            Recipe::read(&recipe_bytes(65535, 0)[0..23]),
            Err(CardFault::Length)
        );
        assert_eq!(rt; Recipe::read(&[]), Err(CardFault::Length));
        assert_eq!(rt;
            largest.write().as_slice(),
            recipe_bytes(9999, 9999).as_slice()
        );
        Ok(())
    }

    #[test]
    fn faults_have_places_in_a_line(rt: HostRuntime) {
        assert_eq!(rt; CardFault::Length.place_in_line(), 3);
        assert_eq!(rt; CardFault::Field(4).place_in_line(), 7);
        assert_eq!(rt; CardFault::Field(22).place_in_line(), 25);
        assert_eq!(rt; CardFault::Field(255).place_in_line(), 255);
    }

    // the six bytes of a slip on a shelf
    fn shown(cards: &[Slip], index: usize) -> Option<[u8; 6]> {
        read(cards, index)?.as_slice().try_into().ok()
    }

    #[test]
    fn shelves_keep_cards(rt: HostRuntime) -> Result<(), Fail> {
        let mut cards = blank_cards::<Slip, 3>();
        let bad = [0, 0, 0, 12, 0, 251];
        fill(&mut cards, 2, &[0, 0, 0, 12, 0, 250])?;
        assert_eq!(rt; fill(&mut cards, 3, &bad), Err(ShelfFault::NoCard));
        assert_eq!(rt;
            fill(&mut cards, 1, &bad),
            Err(ShelfFault::Card(CardFault::Field(4)))
        );
        assert_eq!(rt; shown(&cards, 1), Some([0, 0, 0, 0, 0, 0]));
        assert_eq!(rt; shown(&cards, 2), Some([0, 0, 0, 12, 0, 250]));
        assert_eq!(rt; shown(&cards, 3), None);
        Ok(())
    }

    #[test]
    fn cards_in_words(rt: HostRuntime) -> Result<(), Fail> {
        let heap = rt.alloc();
        assert_eq!(rt;
            card_in_words::<Slip>(heap, &[0, 0, 0, 12, 0, 25])?.as_str(),
            "order 12, can 2.5 l"
        );
        assert_eq!(rt;
            card_in_words::<Slip>(heap, &[0, 0, 0, 12, 0, 251])?.as_str(),
            "the can size is above 25.0 l (byte 4 of the card)"
        );
        assert_eq!(rt;
            card_in_words::<Slip>(heap, &[0, 0, 0, 0, 0])?.as_str(),
            "the card has 5 bytes, a slip has 6"
        );
        assert_eq!(rt;
            card_in_words::<Slip>(heap, &[0])?.as_str(),
            "the card has 1 byte, a slip has 6"
        );
        assert_eq!(rt;
            card_in_words::<Recipe>(heap, &recipe_bytes(123, 5))?.as_str(),
            "colorant 3: 12.3 g, colorant 12: 0.5 g"
        );
        assert_eq!(rt;
            card_in_words::<Recipe>(heap, &recipe_bytes(0, 0))?.as_str(),
            "nothing to pour"
        );
        assert_eq!(rt;
            card_in_words::<Recipe>(heap, &recipe_bytes(10000, 0))?.as_str(),
            "amount 3 is above 999.9 g (byte 4 of the card)"
        );
        assert_eq!(rt;
            card_in_words::<Recipe>(heap, &[])?.as_str(),
            "the card has 0 bytes, a recipe has 24"
        );
        Ok(())
    }
}
