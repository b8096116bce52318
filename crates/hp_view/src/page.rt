use crate::shape::{Area, Colour, Shape, Style};
use crate::words::Words;
use std::alloc::{AllocError, Global};
use std::marker::Model;

/// What has been drawn, in its order.
#[derive(Drop)]
pub struct Page {
    shapes: Vec<Shape>,
}

impl Model for Page {
    ghost use Rattle.std.specs.Prelude.{List};
    ghost use Rattle.hp_view.specs.declared.shape.Shape.{Shape};

    ghost Value = { List Shape };

    ghost view = { λ page. page.shapes.items };
}

impl Page {
    ghost use Rattle.std.specs.Prelude.{◌≡◌, ◌++◌, ◌∷◌, [], OnOk};
    ghost use Rattle.hp_view.specs.Shapes.{field, label};

    /// An empty page.
    pub fn new(alloc: Global) -> Page
        ensures { result ≡ [] }
    {
        Page {
            shapes: Vec::new(alloc),
        }
    }

    /// What has been drawn.
    pub fn shapes(&self) -> &[Shape]
        ensures { result.now ≡ self.now }
    {
        self.shapes.as_slice()
    }

    /// Draws a field.
    pub fn field(&mut self, area: Area, colour: Colour, words: Words) -> Result<(), AllocError>
        ensures { OnOk result (self.new ≡ self.old ++ field area colour words ∷ []) }
    {
        self.shapes.push(Shape::Field {
            area,
            colour,
            words,
        })?;
        Ok(())
    }

    /// Writes words at a place.
    pub fn label(&mut self, x: u64, y: u64, style: Style, words: Words) -> Result<(), AllocError>
        ensures { OnOk result (self.new ≡ self.old ++ label x y style words ∷ []) }
    {
        self.shapes.push(Shape::Label { x, y, style, words })?;
        Ok(())
    }
}
