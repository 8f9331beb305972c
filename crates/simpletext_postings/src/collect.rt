// Collecting the documents of a term from the lines of its entries.
ghost use Rattle.std.specs.Prelude.{◌≡◌, ◌++◌, ◌∷◌, [], List, ℕ, IfOk, OnOk, None};
ghost use Rattle.simpletext_postings.specs.Shapes.{form_with};
ghost use Rattle.simpletext_postings.specs.Entries.{Collects, Rises, collected, listed, so_far, with_positions};
ghost use Rattle.simpletext_postings.specs.Forms.{Form};
ghost use Rattle.simpletext_postings.specs.Forms as form;

use crate::shape::Shape;
use crate::{Positions, Posting};
use std::alloc::{AllocError, Global};

/// The documents of the lines so far.
#[derive(Drop)]
pub struct Collecting {
    alloc: Global,
    docs: u32,
    /// The least number that the next document may have.
    least: u32,
    found: Vec<Posting>,
    /// The document whose positions may go on.
    last: Option<Posting>,
}

impl Collecting {
    /// Before the first line, for a segment of `docs` documents.
    pub fn new(alloc: Global, docs: u32) -> Collecting
        ensures docs { result.docs ≡ docs }
        ensures least { result.least ≡ 0 }
        ensures none { (later : List Form) → collected result later ≡ listed later }
        ensures rises { Rises result }
    {
        Collecting {
            alloc,
            docs,
            least: 0,
            found: Vec::new(alloc),
            last: None,
        }
    }

    /// No more positions belong to the last document.
    fn close(&mut self) -> Result<(), AllocError>
        ensures docs { OnOk result (self.new.docs ≡ self.old.docs) }
        ensures least { OnOk result (self.new.least ≡ self.old.least) }
        ensures last { OnOk result (self.new.last ≡ None) }
        ensures found { OnOk result (self.new.found.items ≡ self.old.found.items ++ with_positions self.old.last []) }
    {
        if let Some(last) = self.last.take() {
            self.found.push(last)?;
        }
        Ok(())
    }

    fn begin(&mut self, doc: u32) -> Result<bool, AllocError>
        ensures { IfOk result (Collects (form.Doc doc) self.old self.new) }
    {
        if doc < self.least || doc >= self.docs {
            return Ok(false);
        }
        self.close()?;
        self.least = doc + 1;
        self.last = Some(Posting {
            doc,
            positions: Positions::new(self.alloc),
        });
        Ok(true)
    }

    fn position(&mut self, number: u32) -> Result<bool, AllocError>
        ensures { IfOk result (Collects (form.Pos number) self.old self.new) }
    {
        if let Some(last) = &mut self.last {
            last.positions.push(number)?;
        }
        Ok(true)
    }

    /// Takes a line of this shape; false where its document is not below the number of documents, or does not rise.
    pub fn take(&mut self, shape: Shape) -> Result<bool, AllocError>
        ensures { (s : List ℕ) → IfOk result (Collects (form_with shape s) self.old self.new) }
    {
        match shape {
            Shape::Doc(doc) => self.begin(doc),
            Shape::Pos(number) => self.position(number),
            _ => Ok(true),
        }
    }

    /// All documents.
    pub fn finish(mut self) -> Result<Vec<Posting>, AllocError>
        ensures { IfOk result (λ v. v.items ≡ so_far self) }
    {
        self.close()?;
        Ok(self.found)
    }
}
