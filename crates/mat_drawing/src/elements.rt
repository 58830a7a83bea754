//! Elements with their attributes.

ghost use Rattle.std.specs.Prelude.{◌≡◌, ◌∷◌, true, IfOk};
ghost use Rattle.mat_drawing.specs.{Attributes.{attribute_names}, Markup.{AddsAttributes, IsDocument, IsElement, IsMarkup}, Names.{is_name}};

use crate::attributes::Attributes;
use std::alloc::{AllocError, Global};

// A tag without its end.
fn opened(alloc: Global, name: &str, attributes: &Attributes<'_>) -> Result<Vec<u8>, AllocError>
    ensures { IfOk result (λ tag. AddsAttributes attribute_names (60 ∷ name.now) tag.items) }
{
    let mut tag = vec![in alloc; b'<']?;
    tag.extend_from_slice(name.as_bytes())?;
    attributes.put(alloc, &mut tag)?;
    Ok(tag)
}

/// The element of this name with these attributes and nothing in it. The only error is want of memory.
pub(crate) fn empty_element(
    alloc: Global,
    name: &str,
    attributes: &Attributes<'_>,
) -> Result<Vec<u8>, AllocError>
    requires { is_name name.now ≡ true }
    ensures { IfOk result (λ text. IsMarkup text.items) }
{
    let mut text = opened(alloc, name, attributes)?;
    text.extend_from_slice(b"/>")?;
    Ok(text)
}

/// The element of this name with these attributes and this markup in it. The only error is want of memory.
pub(crate) fn element(
    alloc: Global,
    name: &str,
    attributes: &Attributes<'_>,
    inside: &[u8],
) -> Result<Vec<u8>, AllocError>
    requires name { is_name name.now ≡ true }
    requires inside { IsMarkup inside.now }
    ensures is_element { IfOk result (λ text. IsElement name.now text.items) }
    ensures markup { IfOk result (λ text. IsMarkup text.items) }
{
    let mut text = opened(alloc, name, attributes)?;
    text.push(b'>')?;
    text.extend_from_slice(inside)?;
    text.extend_from_slice(b"</")?;
    text.extend_from_slice(name.as_bytes())?;
    text.push(b'>')?;
    Ok(text)
}

/// The element of this name with these attributes, with these lines of markup in it and a line feed behind it. The only error is want of
/// memory.
pub(crate) fn document(
    alloc: Global,
    name: &str,
    attributes: &Attributes<'_>,
    lines: &[u8],
) -> Result<Vec<u8>, AllocError>
    requires name { is_name name.now ≡ true }
    requires lines { IsMarkup lines.now }
    ensures is_document { IfOk result (λ text. IsDocument name.now text.items) }
    ensures markup { IfOk result (λ text. IsMarkup text.items) }
{
    let mut inside = vec![in alloc; b'\n']?;
    inside.extend_from_slice(lines)?;
    let mut text = element(alloc, name, attributes, &inside)?;
    text.push(b'\n')?;
    Ok(text)
}
