//! The place of each word of the room in the table. A seat that acts on one pass keeps where the words of the pass begin
//! (`seats.rt`); the other steps ask `place` for the index of their word.
ghost use Rattle.std.specs.Prelude.{◌≡◌, ◌^◌, ◌<◌};
ghost use Rattle.room_core.specs.Gauges.{IsShape};
ghost use Rattle.room_core.specs.Words.{IsWord};
ghost use Rattle.room_table.specs.Layout.{place_of, size_of};

use room_core::{DESCRIPTION_WORDS, MARKS, Shape, Word};

// The words of one pass: its session word, its description and its marks. Where these begin, counted from the session word:
pub(crate) const FIRST_DESCRIPTION: usize = 1;

pub(crate) const FIRST_MARK: usize = FIRST_DESCRIPTION + DESCRIPTION_WORDS as usize;

const PASS_WORDS: usize = FIRST_MARK + MARKS as usize;

/// Where the words of a pass begin, which is where its session word stands.
pub(crate) fn pass_place(shape: Shape, pass: u32) -> usize
    requires shape { IsShape shape }
    requires pass { IsWord shape (Word.Session pass) }
    ensures place { result ≡ place_of shape (Word.Session pass) }
    ensures fits { result < 2 ^ 32 }
{
    3 * shape.gauges as usize + PASS_WORDS * pass as usize
}

pub(crate) fn place(shape: Shape, word: Word) -> usize
    requires shape { IsShape shape }
    requires word { IsWord shape word }
    ensures { result ≡ place_of shape word }
{
    let gauges = shape.gauges as usize;
    match word {
        Word::Value { gauge } => gauge as usize,
        Word::Asked { gauge } => gauges + gauge as usize,
        Word::Begun { gauge } => 2 * gauges + gauge as usize,
        Word::Session { pass } => pass_place(shape, pass),
        Word::Description { pass, at } => pass_place(shape, pass) + FIRST_DESCRIPTION + at as usize,
        Word::Mark { pass, at } => pass_place(shape, pass) + FIRST_MARK + at as usize,
    }
}

/// The number of words.
pub(crate) fn size(shape: Shape) -> usize
    requires { IsShape shape }
    ensures { result ≡ size_of shape }
{
    3 * shape.gauges as usize + PASS_WORDS * shape.passes as usize
}
