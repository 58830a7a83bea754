//! Shapes that are drawn.

ghost use Rattle.std.specs.Prelude.{◌≡◌, true};
ghost use Rattle.mat_drawing.specs.Names.{is_name};

use crate::area::Area;
use crate::attributes::Attributes;
use crate::look::Look;
use crate::point::Point;
use crate::units::Units;

/// A shape.
#[derive(Clone, Copy)]
pub enum Shape<'a> {
    /// A circle: its middle and its radius.
    Circle(Point, Units),
    /// A path: its data.
    Path(&'a str),
    /// A rectangle.
    Rectangle(Area),
}

impl<'a> Shape<'a> {
    /// The name of its element.
    pub(crate) fn name(&self) -> &'static str
        ensures { is_name result.now ≡ true }
    {
        match self {
            Shape::Circle(_, _) => "circle",
            Shape::Path(_) => "path",
            Shape::Rectangle(_) => "rect",
        }
    }

    /// The attributes that tell where it is, and those of a look.
    pub(crate) fn attributes(&self, look: &Look) -> Attributes<'a> {
        let attributes = Attributes::of(look);
        match *self {
            Shape::Circle(middle, radius) => Attributes {
                centre_x: Some(middle.x),
                centre_y: Some(middle.y),
                radius: Some(radius),
                ..attributes
            },
            Shape::Path(data) => Attributes {
                data: Some(data),
                ..attributes
            },
            Shape::Rectangle(area) => Attributes {
                x: Some(area.x),
                y: Some(area.y),
                width: Some(area.width),
                height: Some(area.height),
                ..attributes
            },
        }
    }
}
