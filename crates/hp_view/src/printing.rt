//! The text of a picture.
ghost use Rattle.std.specs.Prelude.{◌≡◌, ◌++◌, OnOk, IfOk, codes, string_bytes};
ghost use Rattle.std.specs.List.{flat_map};
ghost use Rattle.hp_view.specs.Printing.{area_text, escaped, escaped_byte, picture_text, shape_text};

use crate::shape::{Area, Colour, Shape};
use crate::style::{END, HEAD, STYLES};
use std::alloc::{AllocError, Global};
use std::fmt::Write;

/// The text of a picture so high, with these shapes.
pub fn printed(alloc: Global, height: u64, shapes: &[Shape]) -> Result<String, AllocError>
    ensures { IfOk result (λ text. string_bytes text ≡ picture_text height shapes.now) }
{
    let mut text = String::new(alloc);
    text.push_str(HEAD)?;
    write!(text, "{height}")?;
    text.push_str(STYLES)?;
    put_shapes(&mut text, shapes)?;
    text.push_str(END)?;
    Ok(text)
}

fn put_shapes(text: &mut String, shapes: &[Shape]) -> Result<(), AllocError>
    ensures { OnOk result (string_bytes text.new ≡ string_bytes text.old ++ flat_map shape_text shapes.now) }
{
    for shape in shapes {
        put_shape(text, shape)?;
    }
    Ok(())
}

fn put_shape(text: &mut String, shape: &Shape) -> Result<(), AllocError>
    ensures { OnOk result (string_bytes text.new ≡ string_bytes text.old ++ shape_text shape.now) }
{
    match shape {
        Shape::Field {
            area,
            colour,
            words,
        } => {
            open_field(text, *area, *colour)?;
            put_escaped(text, words.as_bytes())?;
            text.push_str("</title></rect>\n")
        }
        Shape::Label { x, y, style, words } => {
            write!(text, "<text x=\"{x}\" y=\"{y}\" class=\"{style}\">")?;
            put_escaped(text, words.as_bytes())?;
            text.push_str("</text>\n")
        }
    }
}

fn open_field(text: &mut String, area: Area, colour: Colour) -> Result<(), AllocError>
    ensures { OnOk result (string_bytes text.new ≡ string_bytes text.old
        ++ (area_text area.x area.y area.width area.height colour ++ codes "<title>")) }
{
    let x = area.x;
    let y = area.y;
    let width = area.width;
    let height = area.height;
    write!(
        text,
        "<rect x=\"{x}\" y=\"{y}\" width=\"{width}\" height=\"{height}\" class=\"{colour}\"><title>"
    )
}

// Adds words, escaped.
fn put_escaped(text: &mut String, words: &[u8]) -> Result<(), AllocError>
    ensures { OnOk result (string_bytes text.new ≡ string_bytes text.old ++ escaped words.now) }
{
    for byte in words {
        put_byte(text, *byte)?;
    }
    Ok(())
}

fn put_byte(text: &mut String, byte: u8) -> Result<(), AllocError>
    ensures { OnOk result (string_bytes text.new ≡ string_bytes text.old ++ escaped_byte byte) }
{
    if byte == b'&' {
        text.push_str("&amp;")
    } else if byte == b'<' {
        text.push_str("&lt;")
    } else if byte == b'>' {
        text.push_str("&gt;")
    } else if byte == b'"' {
        text.push_str("&quot;")
    } else if 32 <= byte && byte <= 126 {
        text.push(char::from(byte))
    } else {
        text.push_str("?")
    }
}
