//! How things look: the colours by words, in this one place.

use crate::shape::{Colour, Style};
use std::fmt;

/// What stands before the height of a picture.
pub const HEAD: &str = "<svg xmlns=\"http://www.w3.org/2000/svg\" width=\"1200\" height=\"";

/// What stands after it.
pub const STYLES: &str = "\">\n<style>\n\
    svg { background: white }\n\
    text { font: 13px sans-serif; fill: black }\n\
    .title { font-size: 20px; font-weight: bold }\n\
    .head { font-size: 15px; font-weight: bold }\n\
    .note { fill: dimgray }\n\
    .pale { fill: silver }\n\
    .inside { fill: white; pointer-events: none }\n\
    .before { text-anchor: end }\n\
    .busy { fill: steelblue }\n\
    .many { fill: darkorange }\n\
    .tick { fill: dimgray }\n\
    .grown { fill: mediumpurple }\n\
    .shrunk { fill: lightcoral }\n\
    .stayed { fill: lightgray }\n\
    .refused { fill: crimson }\n\
    .free0, .free1, .free2, .free3, .free4 { fill: palegreen }\n\
    .free5, .free6, .free7, .free8 { fill: lightgreen }\n\
    .free9, .free10, .free11, .free12 { fill: yellowgreen }\n\
    </style>\n";

/// The end of a picture.
pub const END: &str = "</svg>\n";

/// The word of a colour.
impl fmt::Display for Colour {
    ghost use Rattle.std.specs.Prelude.{Some};
    ghost use Rattle.hp_view.specs.Printing.{colour_word};

    ghost output = { λ colour. Some (colour_word colour) };

    fn fmt<W: fmt::Write>(&self, f: &mut fmt::Formatter<W>) -> fmt::Result {
        match self {
            Colour::Busy => write!(f, "busy"),
            Colour::Free { class } => write!(f, "free{class}"),
            Colour::Many => write!(f, "many"),
            Colour::Tick => write!(f, "tick"),
            Colour::Grown => write!(f, "grown"),
            Colour::Shrunk => write!(f, "shrunk"),
            Colour::Stayed => write!(f, "stayed"),
            Colour::Refused => write!(f, "refused"),
        }
    }
}

/// The word of a style.
impl fmt::Display for Style {
    ghost use Rattle.std.specs.Prelude.{Some};
    ghost use Rattle.hp_view.specs.Printing.{style_word};

    ghost output = { λ style. Some (style_word style) };

    fn fmt<W: fmt::Write>(&self, f: &mut fmt::Formatter<W>) -> fmt::Result {
        match self {
            Style::Title => write!(f, "title"),
            Style::Head => write!(f, "head"),
            Style::Note => write!(f, "note"),
            Style::Plain => write!(f, "plain"),
            Style::Pale => write!(f, "pale"),
            Style::Inside => write!(f, "inside"),
            Style::Before => write!(f, "before"),
        }
    }
}
