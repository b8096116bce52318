use crate::words::Words;

/// A rectangle of the picture, in pixels from its upper left corner.
#[derive(Clone, Copy)]
pub struct Area {
    pub x: u64,
    pub y: u64,
    pub width: u64,
    pub height: u64,
}

/// What the colour of a field says.
#[derive(Clone, Copy)]
pub enum Colour {
    /// A busy element.
    Busy,
    /// A free element, of the free list of a class.
    Free { class: u64 },
    /// Several small elements.
    Many,
    /// The beginning of a page.
    Tick,
    /// A record by which pages came.
    Grown,
    /// A record by which pages went.
    Shrunk,
    /// A record of another heap.
    Stayed,
    /// An ask that was refused, or a record of a growth that failed.
    Refused,
}

/// How words are written.
#[derive(Clone, Copy)]
pub enum Style {
    /// The title of the picture.
    Title,
    /// The title of a part.
    Head,
    /// A remark.
    Note,
    /// A row.
    Plain,
    /// A row with nothing to tell.
    Pale,
    /// In a field.
    Inside,
    /// Beside a mark, to its left.
    Before,
}

/// One thing that is drawn.
#[derive(Drop)]
pub enum Shape {
    /// A field of a colour, with words that show where one points at it.
    Field {
        area: Area,
        colour: Colour,
        words: Words,
    },
    /// Words at a place.
    Label {
        x: u64,
        y: u64,
        style: Style,
        words: Words,
    },
}
