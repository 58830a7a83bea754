//! Attributes of elements.

ghost use Rattle.std.specs.Prelude.{◌≡◌, ◌∷◌, [], true, OnOk};
ghost use Rattle.mat_drawing.specs.{Attributes.{attribute_names, marker_names, place_names}, Markup.{AddsAttributes}, Names.{is_name}};

use crate::escaping::put_escaped;
use crate::look::Look;
use crate::units::Units;
use crate::values::{ArrowName, ViewBox};
use std::alloc::{AllocError, Global};
use std::fmt::Display;

// Appends an attribute behind a space.
fn put_attribute(tag: &mut Vec<u8>, name: &str, value: &[u8]) -> Result<(), AllocError>
    requires { is_name name.now ≡ true }
    ensures { OnOk result (AddsAttributes (name.now ∷ []) tag.old.items tag.new.items) }
{
    tag.push(b' ')?;
    tag.extend_from_slice(name.as_bytes())?;
    tag.extend_from_slice(b"=\"")?;
    put_escaped(tag, value)?;
    tag.push(b'"')?;
    Ok(())
}

/// Appends the attribute of this name behind a space, where it has a value. The only error is want of memory.
pub(crate) fn put<V: Display + Drop>(
    alloc: Global,
    tag: &mut Vec<u8>,
    name: &str,
    value: Option<V>,
) -> Result<(), AllocError>
    requires { is_name name.now ≡ true }
    ensures { OnOk result (AddsAttributes (name.now ∷ []) tag.old.items tag.new.items) }
{
    match value {
        Some(value) => {
            let value = value.to_string(alloc)?;
            put_attribute(tag, name, value.as_bytes())
        }
        None => Ok(()),
    }
}

/// The attributes of an element: each has one value or none, so that no two have the same name.
#[derive(Clone, Copy)]
pub(crate) struct Attributes<'a> {
    /// The language that names of elements and attributes are words of.
    pub(crate) namespace: Option<&'static str>,
    /// How far the left side, or the point of a text, is from the left edge.
    pub(crate) x: Option<Units>,
    /// How far the upper side, or the point of a text, is from the upper edge.
    pub(crate) y: Option<Units>,
    /// How wide it is.
    pub(crate) width: Option<Units>,
    /// How high it is.
    pub(crate) height: Option<Units>,
    /// The width and the height of all that is seen.
    pub(crate) view_box: Option<ViewBox>,
    /// How far the middle is from the left edge.
    pub(crate) centre_x: Option<Units>,
    /// How far the middle is from the upper edge.
    pub(crate) centre_y: Option<Units>,
    /// The radius.
    pub(crate) radius: Option<Units>,
    /// The data of a path.
    pub(crate) data: Option<&'a str>,
    /// The name of an arrow head.
    pub(crate) arrow_name: Option<ArrowName>,
    /// In what units the size of an arrow head is told.
    pub(crate) marker_units: Option<&'static str>,
    /// How wide an arrow head is.
    pub(crate) marker_width: Option<Units>,
    /// How high an arrow head is.
    pub(crate) marker_height: Option<Units>,
    /// How far the point of an arrow head that is put on a line's end is from its left side.
    pub(crate) marker_x: Option<Units>,
    /// How far the point of an arrow head that is put on a line's end is from its upper side.
    pub(crate) marker_y: Option<Units>,
    /// Which direction an arrow head has.
    pub(crate) direction: Option<&'static str>,
    /// How the element looks.
    pub(crate) look: Look,
}

impl<'a> Attributes<'a> {
    /// Those of a look alone.
    pub(crate) fn of(look: &Look) -> Attributes<'a> {
        Attributes {
            namespace: None,
            x: None,
            y: None,
            width: None,
            height: None,
            view_box: None,
            centre_x: None,
            centre_y: None,
            radius: None,
            data: None,
            arrow_name: None,
            marker_units: None,
            marker_width: None,
            marker_height: None,
            marker_x: None,
            marker_y: None,
            direction: None,
            look: *look,
        }
    }

    // Appends those that tell where the element is.
    fn put_place(&self, alloc: Global, tag: &mut Vec<u8>) -> Result<(), AllocError>
        ensures { OnOk result (AddsAttributes place_names tag.old.items tag.new.items) }
    {
        put(alloc, tag, "xmlns", self.namespace)?;
        put(alloc, tag, "x", self.x)?;
        put(alloc, tag, "y", self.y)?;
        put(alloc, tag, "width", self.width)?;
        put(alloc, tag, "height", self.height)?;
        put(alloc, tag, "viewBox", self.view_box)?;
        put(alloc, tag, "cx", self.centre_x)?;
        put(alloc, tag, "cy", self.centre_y)?;
        put(alloc, tag, "r", self.radius)?;
        put(alloc, tag, "d", self.data)
    }

    // Appends those of an arrow head.
    fn put_marker(&self, alloc: Global, tag: &mut Vec<u8>) -> Result<(), AllocError>
        ensures { OnOk result (AddsAttributes marker_names tag.old.items tag.new.items) }
    {
        put(alloc, tag, "id", self.arrow_name)?;
        put(alloc, tag, "markerUnits", self.marker_units)?;
        put(alloc, tag, "markerWidth", self.marker_width)?;
        put(alloc, tag, "markerHeight", self.marker_height)?;
        put(alloc, tag, "refX", self.marker_x)?;
        put(alloc, tag, "refY", self.marker_y)?;
        put(alloc, tag, "orient", self.direction)
    }

    /// Appends them, each behind a space. The only error is want of memory.
    pub(crate) fn put(&self, alloc: Global, tag: &mut Vec<u8>) -> Result<(), AllocError>
        ensures { OnOk result (AddsAttributes attribute_names tag.old.items tag.new.items) }
    {
        self.put_place(alloc, tag)?;
        self.put_marker(alloc, tag)?;
        self.look.put(alloc, tag)
    }
}
