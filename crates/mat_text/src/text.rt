//! Texts, paragraph by paragraph.

ghost use Rattle.std.specs.Prelude.{◌≡◌, ◌≤◌};
ghost use Rattle.mat_text.specs.Texts.{end_of_head, IsPrintable};

use crate::filling::put_paragraph;
use std::alloc::{AllocError, Global};
use std::fmt::Display;

/// A paragraph: the spaces in front of its first line, and its words, with spaces between them.
#[derive(Drop)]
pub struct Paragraph {
    indentation: usize,
    words: String,
    pub ghost shallow: { indentation ≤ 4 },
}

impl Paragraph {
    ghost use Rattle.std.specs.Prelude.{string_bytes};

    /// How many spaces stand in front of its first line: at most 4.
    pub fn indentation(&self) -> usize
        ensures value { result ≡ self.now.indentation }
        ensures shallow { result ≤ 4 }
    {
        self.indentation
    }

    /// Its words, with spaces between them.
    pub fn words(&self) -> &str
        ensures { result.now ≡ string_bytes self.now.words }
    {
        &self.words
    }
}

/// A list of paragraphs: what is said, what belongs to it, and single items of that, each indented by two more.
#[derive(Drop)]
pub struct Text {
    alloc: Global,
    paragraphs: Vec<Paragraph>,
}

impl Text {
    ghost use Rattle.std.specs.Prelude.{[], None, IfOk, OnOk, OnErr};
    ghost use Rattle.mat_text.specs.Paragraphs.{AddsParagraph, AreShallow, KeepsParagraphs};

    /// No paragraphs. It takes no memory.
    pub fn new(alloc: Global) -> Text
        ensures { result.paragraphs.items ≡ [] }
    {
        Text {
            alloc,
            paragraphs: Vec::new(alloc),
        }
    }

    /// The paragraphs, in their order.
    pub fn paragraphs(&self) -> &[Paragraph]
        ensures items { result.now ≡ self.now.paragraphs.items }
        ensures shallow { AreShallow result.now }
    {
        self.paragraphs.as_slice()
    }

    /// Where the paragraphs get their memory.
    pub fn alloc(&self) -> Global
        ensures { result ≡ self.now.alloc }
    {
        self.alloc
    }

    // Adds a paragraph.
    fn add<W: Display + Drop>(&mut self, indentation: usize, words: W) -> Result<(), AllocError>
        requires shallow { indentation ≤ 4 }
        ensures added { OnOk result (AddsParagraph indentation (W.output words) self.old self.new) }
        ensures unchanged { OnErr result (self.new.paragraphs.items ≡ self.old.paragraphs.items) }
        ensures kept { KeepsParagraphs self.old self.new }
    {
        let words = words.to_string(self.alloc)?;
        self.paragraphs.push(Paragraph { indentation, words })?;
        Ok(())
    }

    /// Adds a paragraph that is not indented. The only error is want of memory.
    pub fn say<W: Display + Drop>(&mut self, words: W) -> Result<(), AllocError>
        ensures added { OnOk result (AddsParagraph 0 (W.output words) self.old self.new) }
        ensures unchanged { OnErr result (self.new.paragraphs.items ≡ self.old.paragraphs.items) }
        ensures kept { KeepsParagraphs self.old self.new }
    {
        self.add(0, words)
    }

    /// Adds a paragraph that belongs to what was said. The only error is want of memory.
    pub fn detail<W: Display + Drop>(&mut self, words: W) -> Result<(), AllocError>
        ensures added { OnOk result (AddsParagraph 2 (W.output words) self.old self.new) }
        ensures unchanged { OnErr result (self.new.paragraphs.items ≡ self.old.paragraphs.items) }
        ensures kept { KeepsParagraphs self.old self.new }
    {
        self.add(2, words)
    }

    /// Adds an item of a detail. The only error is want of memory.
    pub fn item<W: Display + Drop>(&mut self, words: W) -> Result<(), AllocError>
        ensures added { OnOk result (AddsParagraph 4 (W.output words) self.old self.new) }
        ensures unchanged { OnErr result (self.new.paragraphs.items ≡ self.old.paragraphs.items) }
        ensures kept { KeepsParagraphs self.old self.new }
    {
        self.add(4, words)
    }

    /// Adds a detail of a head and a list, each word of which stands behind a space. The only error is want of memory.
    pub fn list<W: Display + Drop>(&mut self, head: W, list: &str) -> Result<(), AllocError>
        ensures added { OnOk result (AddsParagraph 2 None self.old self.new) }
        ensures unchanged { OnErr result (self.new.paragraphs.items ≡ self.old.paragraphs.items) }
        ensures kept { KeepsParagraphs self.old self.new }
    {
        self.detail(format_args!("{head}{}{list}", end_of_head(list)))
    }

    /// Adds an item of a head and a list, each word of which stands behind a space. The only error is want of memory.
    pub fn item_list<W: Display + Drop>(&mut self, head: W, list: &str) -> Result<(), AllocError>
        ensures added { OnOk result (AddsParagraph 4 None self.old self.new) }
        ensures unchanged { OnErr result (self.new.paragraphs.items ≡ self.old.paragraphs.items) }
        ensures kept { KeepsParagraphs self.old self.new }
    {
        self.item(format_args!("{head}{}{list}", end_of_head(list)))
    }

    /// The lines of all paragraphs, each filled with words up to so many bytes. The only error is want of memory.
    pub fn filled(&self, most: usize) -> Result<Vec<u8>, AllocError>
        ensures { IfOk result (λ text. IsPrintable text.items) }
    {
        let mut out = Vec::new(self.alloc);
        for paragraph in &self.paragraphs {
            put_paragraph(
                &mut out,
                paragraph.indentation,
                paragraph.words.as_bytes(),
                most,
            )?;
        }
        Ok(out)
    }
}

// What stands between a head and a list: a full stop where the list is empty.
fn end_of_head(list: &str) -> &'static str
    ensures { result.now ≡ end_of_head list.now }
{
    if list.is_empty() { "." } else { ":" }
}
