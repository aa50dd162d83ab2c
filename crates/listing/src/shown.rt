// Bytes, names and whole listings as they are shown.
ghost use Rattle.std.specs.Prelude.{map, Some};
ghost use Rattle.listing.specs.Lines.{on_one_line, shown_byte};
ghost use Rattle.listing.specs.Listings.{name_text};

use crate::printed::write_printed;
use std::fmt;
use words::name::Name;

// Bytes, each as one printed character.
#[derive(Clone, Copy)]
pub(crate) struct ShownBytes<'a>(pub &'a [u8]);

impl fmt::Display for ShownBytes<'_> {
    ghost output = { λ s. Some (map shown_byte s.0.now) };

    fn fmt<W: fmt::Write>(&self, f: &mut fmt::Formatter<W>) -> fmt::Result {
        write_printed(f, self.0, b' ')
    }
}

/// A name as text.
#[derive(Clone, Copy)]
pub struct ShownName(pub Name);

impl fmt::Display for ShownName {
    ghost output = { λ s. Some (name_text s.0) };

    fn fmt<W: fmt::Write>(&self, f: &mut fmt::Formatter<W>) -> fmt::Result {
        f.write(ShownBytes(self.0.as_bytes()))
    }
}

/// A text on one line: a bar where each of its lines ends, and its other bytes each as one printed character.
#[derive(Clone, Copy)]
pub struct OneLine<'a>(pub &'a str);

impl fmt::Display for OneLine<'_> {
    ghost output = { λ text. Some (map on_one_line text.0.now) };

    fn fmt<W: fmt::Write>(&self, f: &mut fmt::Formatter<W>) -> fmt::Result {
        write_printed(f, self.0.as_bytes(), b'|')
    }
}
