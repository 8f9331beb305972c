// The blocks of the lines so far.
ghost use Rattle.std.specs.Prelude.{◌≡◌, ◌≤◌, ◌+◌, ◌++◌, ◌∷◌, [], List, length, IsTrue, IfOk, OnOk};
ghost use Rattle.mount_script.specs.Blocks.{Entry, divider, one, stands_alone, put_block, blocks};
ghost use Rattle.mount_script.specs.Building.{blocks_in, built, block_count};

use crate::Line;
use std::alloc::{AllocError, Global};
use std::mem;

/// The blocks that have ended, and the lines of the one that has not.
#[derive(Drop)]
pub(crate) struct Building {
    alloc: Global,
    ended: Vec<Vec<Line>>,
    begun: Vec<Line>,
}

impl Building {
    /// Before the first line; takes no memory.
    pub(crate) fn new(alloc: Global) -> Building
        ensures built { (es : List Entry) → built result es ≡ blocks [] es }
        ensures count { block_count result ≡ 0 }
    {
        Building {
            alloc,
            ended: Vec::new(alloc),
            begun: Vec::new(alloc),
        }
    }

    /// Ends the block, where it has lines.
    pub(crate) fn end_block(&mut self) -> Result<(), AllocError>
        ensures built { (es : List Entry) → OnOk result (built self.new es ≡ built self.old (divider ∷ es)) }
        ensures ended { OnOk result
            (blocks_in self.new.ended ≡ blocks_in self.old.ended ++ put_block self.old.begun.items []) }
        ensures begun { OnOk result (self.new.begun.items ≡ []) }
        ensures count { OnOk result (block_count self.new ≤ block_count self.old) }
    {
        if self.begun.is_empty() {
            return Ok(());
        }
        let lines = mem::replace(&mut self.begun, Vec::new(self.alloc));
        self.ended.push(lines)?;
        Ok(())
    }

    /// A block of this line alone.
    fn push_alone(&mut self, line: Line) -> Result<(), AllocError>
        requires { IsTrue (stands_alone line.command) }
        ensures built { (es : List Entry) → OnOk result (built self.new es ≡ built self.old (one line ∷ es)) }
        ensures count { OnOk result (block_count self.new ≤ block_count self.old + 1) }
    {
        self.end_block()?;
        let mut lines = Vec::with_capacity(self.alloc, 1)?;
        lines.push(line)?;
        self.ended.push(lines)?;
        Ok(())
    }

    /// Puts a line behind those so far.
    pub(crate) fn push(&mut self, line: Line) -> Result<(), AllocError>
        ensures built { (es : List Entry) → OnOk result (built self.new es ≡ built self.old (one line ∷ es)) }
        ensures count { OnOk result (block_count self.new ≤ block_count self.old + 1) }
    {
        if line.command.stands_alone() {
            return self.push_alone(line);
        }
        self.begun.push(line)?;
        Ok(())
    }

    /// All blocks, where no line is left.
    pub(crate) fn finish(mut self) -> Result<Vec<Vec<Line>>, AllocError>
        ensures blocks { IfOk result (λ v. blocks_in v ≡ built self []) }
        ensures count { IfOk result (λ v. length v.items ≤ block_count self) }
    {
        self.end_block()?;
        Ok(self.ended)
    }
}
