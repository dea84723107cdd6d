//! An iterator over the characters of a BMPString.
ghost use Rattle.std.specs.Iterator.{YieldsFirst, item_count};

use std::marker::Model;

/// An iterator over the characters of a BMPString, from the first to the last.
#[derive(Debug, Drop)]
pub struct BmpCharacters<'a> {
    pub(crate) rest: &'a [u16],
}

impl<'a> Model for BmpCharacters<'a> {
    ghost use Rattle.std.specs.Prelude.{List, ℕ};

    ghost Value = { List ℕ };

    ghost view = { λ c. c.rest.now };
}

impl<'a> Iterator for BmpCharacters<'a> {
    type Item = u32;

    ghost next_gives = { YieldsFirst (λ rest. rest) };

    ghost remaining = { item_count (λ rest. rest) };

    fn next(&mut self) -> Option<u32> {
        let (first, rest) = self.rest.split_first()?;
        self.rest = rest;
        Some(u32::from(*first))
    }
}
