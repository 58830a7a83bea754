//! Colours that most readers tell apart, those with the common kinds of colour blindness too, after Okabe and Ito.

ghost use Rattle.std.specs.Prelude.{◌≡◌, ◌%◌, slice_index_or};
ghost use Rattle.mat_drawing.specs.Colours.{numbered_colours, pale_colours};

use std::fmt;

/// A colour by its parts of red, green and blue, in markup a `#` and six hexadecimal digits.
#[derive(Clone, Copy, Debug, PartialEq, Eq)]
pub struct Colour(u32);

impl Colour {
    /// The first of the numbered colours.
    pub const BLUE: Colour = Colour(0x0072B2);

    /// The second of the numbered colours.
    pub const RED: Colour = Colour(0xD55E00);

    /// The colour of what has no number.
    pub const GREY: Colour = Colour(0xB8B8B8);

    /// The colour of words that matter less.
    pub const DIM: Colour = Colour(0x555555);

    /// The colour of what is empty.
    pub const WHITE: Colour = Colour(0xFFFFFF);

    /// The colour of frames.
    pub const BLACK: Colour = Colour(0x000000);

    /// The colour of this number: the first is that of 0, and after seven they begin again.
    pub fn numbered(number: usize) -> Colour
        ensures { result.0 ≡ slice_index_or numbered_colours (number % 7) 0 }
    {
        match number % 7 {
            0 => Colour::BLUE,
            1 => Colour::RED,
            2 => Colour(0x009E73),
            3 => Colour(0xCC79A7),
            4 => Colour(0xE69F00),
            5 => Colour(0x56B4E9),
            _ => Colour::BLACK,
        }
    }

    /// The pale colour of this number, to shade what words and lines stand on.
    pub fn pale(number: usize) -> Colour
        ensures { result.0 ≡ slice_index_or pale_colours (number % 7) 0 }
    {
        match number % 7 {
            0 => Colour(0xCCE3F0),
            1 => Colour(0xF7DFCC),
            2 => Colour(0xCCECE3),
            3 => Colour(0xF5E4ED),
            4 => Colour(0xFAECCC),
            5 => Colour(0xDDF0FB),
            _ => Colour(0xDDDDDD),
        }
    }
}

impl fmt::Display for Colour {
    fn fmt<W: fmt::Write>(&self, f: &mut fmt::Formatter<W>) -> fmt::Result {
        let rgb = self.0;
        write!(f, "#{rgb:06X}")
    }
}
