//! The rules of matroids, by their kinds.

use mat_any::AnyMatroid;
use mat_count::Uniform;
use mat_text::{Noun, many};
use std::fmt;

/// The rule of a matroid, told by its kind alone.
#[derive(Clone, Copy)]
pub struct Rule<'a>(pub &'a AnyMatroid);

// Writes the rule of a uniform matroid.
fn put_uniform<W: fmt::Write>(f: &mut fmt::Formatter<W>, uniform: &Uniform) -> fmt::Result {
    if uniform.cap() < uniform.count() {
        let most = many(uniform.cap() as usize, Noun::Element);
        write!(f, "at most {most} (uniform)")
    } else {
        write!(f, "nothing more is asked (uniform)")
    }
}

// Writes the rule of a matroid that is made of others.
fn put_made<W: fmt::Write>(f: &mut fmt::Formatter<W>, made: &AnyMatroid) -> fmt::Result {
    match made {
        AnyMatroid::Dual(_) => write!(f, "what is taken can be spared under another rule (dual)"),
        AnyMatroid::Truncate { cap, .. } => {
            let most = many(*cap as usize, Noun::Element);
            write!(f, "at most {most}, which keep another rule (truncate)")
        }
        AnyMatroid::Restrict { .. } => {
            write!(
                f,
                "only some of the elements, which keep another rule (restrict)"
            )
        }
        AnyMatroid::Contract { .. } => {
            write!(
                f,
                "what keeps another rule beside the elements that are given (contract)"
            )
        }
        AnyMatroid::Union { parts } => {
            let rules = many(parts.len(), Noun::Rule);
            write!(f, "the elements are shared out among {rules} (union)")
        }
        _ => Ok(()),
    }
}

impl fmt::Display for Rule<'_> {
    fn fmt<W: fmt::Write>(&self, f: &mut fmt::Formatter<W>) -> fmt::Result {
        match self.0 {
            AnyMatroid::Uniform(uniform) => put_uniform(f, uniform),
            AnyMatroid::Partition(partition) => {
                let classes = many(partition.classes().len(), Noun::Class);
                write!(f, "at most so many of each of {classes} (partition)")
            }
            AnyMatroid::Laminar(laminar) => {
                let sets = many(laminar.sets().len(), Noun::Set);
                write!(
                    f,
                    "at most so many of each of {sets}, apart or nested (laminar)"
                )
            }
            AnyMatroid::Graphic(graphic) => {
                let vertices = many(graphic.vertices() as usize, Noun::Vertex);
                write!(
                    f,
                    "the elements are edges between {vertices}, and there is no ring of them (graphic)"
                )
            }
            AnyMatroid::Transversal(transversal) => {
                let sets = many(transversal.family().len(), Noun::Set);
                write!(
                    f,
                    "the elements go to different ones of {sets}, each to one that holds it (transversal)"
                )
            }
            AnyMatroid::Gammoid(_) => {
                write!(
                    f,
                    "routes that do not meet lead from sources to the elements, one to each (gammoid)"
                )
            }
            AnyMatroid::Gf2(_) => write!(f, "no part of the columns adds up to zero (gf2)"),
            made => put_made(f, made),
        }
    }
}
