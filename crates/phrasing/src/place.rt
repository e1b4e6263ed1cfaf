// Where a pattern stands.
ghost use Rattle.std.specs.Prelude.{◌≡◌};
ghost use Rattle.text.specs.Text.{Bytes};
ghost use Rattle.words.specs.bridge.Key.{Keyed};
ghost use Rattle.editions.specs.Refusals.{free, begins, takes_distinct, takes_project, takes_order};
ghost use Rattle.spelling.specs.bridge.Judging.{place_under};
ghost use Rattle.phrasing.specs.bridge.Code.{edition_at, edition_told, place_at, place_told};

use crate::edition::Edition;
use words::keys;

// At the root, inside a pattern, or under that word of a stack; reduced counts as distinct.
#[derive(Clone, Copy, Debug, PartialEq, Eq)]
pub enum Place {
    Root,
    Inner,
    UnderSlice,
    UnderDistinct,
    UnderProject,
}

// The place with a number: 4 and any higher one is the last.
impl From<u8> for Place {
    ghost from_gives = { λ number place. place_at place ≡ place_told number };

    fn from(number: u8) -> Place {
        match number {
            0 => Place::Root,
            1 => Place::Inner,
            2 => Place::UnderSlice,
            3 => Place::UnderDistinct,
            _ => Place::UnderProject,
        }
    }
}

// The place directly behind a line whose word has this key.
pub fn place_under(key: u64) -> Place
    ensures { (f : Bytes) → Keyed f key → place_at result ≡ place_under f }
{
    match key {
        keys::QUERY => Place::Root,
        keys::SLICE => Place::UnderSlice,
        keys::DISTINCT => Place::UnderDistinct,
        keys::REDUCED => Place::UnderDistinct,
        keys::PROJECT => Place::UnderProject,
        _ => Place::Inner,
    }
}

impl Place {
    // A pattern may stand there that is no part of a stack.
    pub fn is_free(self) -> bool
        ensures { result ≡ free (place_at self) }
    {
        match self {
            Place::Root => false,
            Place::Inner => true,
            Place::UnderSlice => false,
            Place::UnderDistinct => false,
            Place::UnderProject => true,
        }
    }

    // A stack may begin there.
    pub fn may_begin(self, edition: Edition) -> bool
        ensures { result ≡ begins (edition_at edition) (place_at self) }
    {
        match self {
            Place::Root => true,
            Place::Inner => edition.is_eleven(),
            Place::UnderSlice => false,
            Place::UnderDistinct => false,
            Place::UnderProject => edition.is_eleven(),
        }
    }

    pub fn takes_distinct(self, edition: Edition) -> bool
        ensures { result ≡ takes_distinct (edition_at edition) (place_at self) }
    {
        match self {
            Place::Root => true,
            Place::Inner => edition.is_eleven(),
            Place::UnderSlice => true,
            Place::UnderDistinct => false,
            Place::UnderProject => edition.is_eleven(),
        }
    }

    pub fn takes_project(self, edition: Edition) -> bool
        ensures { result ≡ takes_project (edition_at edition) (place_at self) }
    {
        match self {
            Place::Root => true,
            Place::Inner => edition.is_eleven(),
            Place::UnderSlice => true,
            Place::UnderDistinct => true,
            Place::UnderProject => edition.is_eleven(),
        }
    }

    pub fn takes_order(self) -> bool
        ensures { result ≡ takes_order (place_at self) }
    {
        match self {
            Place::Root => false,
            Place::Inner => false,
            Place::UnderSlice => false,
            Place::UnderDistinct => false,
            Place::UnderProject => true,
        }
    }
}

// The same of a place by its number, and of an edition by whether it is 1.1.
pub fn is_free(place: u8) -> bool
    ensures { result ≡ free (place_told place) }
{
    Place::from(place).is_free()
}

pub fn may_begin(eleven: bool, place: u8) -> bool
    ensures { result ≡ begins (edition_told eleven) (place_told place) }
{
    Place::from(place).may_begin(Edition::from(eleven))
}

pub fn takes_distinct(eleven: bool, place: u8) -> bool
    ensures { result ≡ takes_distinct (edition_told eleven) (place_told place) }
{
    Place::from(place).takes_distinct(Edition::from(eleven))
}

pub fn takes_project(eleven: bool, place: u8) -> bool
    ensures { result ≡ takes_project (edition_told eleven) (place_told place) }
{
    Place::from(place).takes_project(Edition::from(eleven))
}

pub fn takes_order(place: u8) -> bool
    ensures { result ≡ takes_order (place_told place) }
{
    Place::from(place).takes_order()
}
