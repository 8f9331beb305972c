// A script: its blocks of lines.
ghost use Rattle.std.specs.Prelude.{◌≡◌, ◌<◌, ◌≤◌, ◌+◌, ◌∷◌, length, slice_get, Some, IfOk, OnOk};
ghost use Rattle.mount_script.specs.Scripts.{lines_of, is_too_long, script, IsScript, TakesLine, TakesLines};
ghost use Rattle.mount_script.specs.Building.{block_count};

use crate::blocks::Building;
use crate::commands::command_of;
use crate::error::Misread;
use crate::{Line, ScriptError};
use memchr::memchr;
use std::alloc::Global;
use std::marker::Model;

/// The most bytes and the most lines of a script.
const MOST_BYTES: usize = 1_048_576;

const MOST_LINES: usize = 65_535;

/// A script: its blocks, each a list of lines. Clauses see the list of these lists.
#[derive(Drop)]
pub struct Script {
    blocks: Vec<Vec<Line>>,
}

impl Model for Script {
    ghost use Rattle.std.specs.Prelude.{List, map, length, ◌<◌, ◌^◌};
    ghost use Rattle.mount_script.specs.declared.command.Line.{Line};

    ghost Value = { List (List Line) };

    ghost view = { λ s. map (λ b. b.items) s.blocks.items };

    ghost invariant = { λ s. length s.blocks.items < 2 ^ 32 };
}

/// The first line, and what stands behind its end.
fn first_line(text: &[u8]) -> (&[u8], &[u8])
    requires { 0 < length text.now }
    ensures lines { lines_of text.now ≡ result.0.now ∷ lines_of result.1.now }
    ensures shorter { length result.1.now < length text.now }
{
    match memchr(b'\n', text) {
        Some(end) => (&text[..end], &text[end + 1..]),
        None => (text, &text[text.len()..]),
    }
}

fn line_count(text: &[u8]) -> usize
    ensures { result ≡ length (lines_of text.now) }
{
    let mut left = text;
    let mut count = 0;
    while !left.is_empty() {
        left = first_line(left).1;
        count += 1;
    }
    count
}

/// Whether the text has more bytes or more lines than a script may.
fn is_too_long(text: &[u8]) -> bool
    ensures { result ≡ is_too_long text.now }
{
    text.len() > MOST_BYTES || line_count(text) > MOST_LINES
}

/// Puts line number `number` behind the lines so far.
fn take_line(
    alloc: Global,
    building: &mut Building,
    number: u32,
    line: &[u8],
) -> Result<(), ScriptError>
    ensures taken { TakesLine building.old building.new number line.now result }
    ensures count { OnOk result (block_count building.new ≤ block_count building.old + 1) }
{
    if line.is_empty() {
        return Ok(());
    }
    if line == b"--".as_slice() {
        building.end_block()?;
        return Ok(());
    }
    match command_of(alloc, line) {
        Ok(command) => building.push(Line { number, command })?,
        Err(Misread::Form) => return Err(ScriptError::BadLine { line: number }),
        Err(Misread::NoMemory) => return Err(ScriptError::NoMemory),
    }
    Ok(())
}

/// Reads the lines of a text that is not too long.
fn read_lines(alloc: Global, text: &[u8]) -> Result<Building, ScriptError>
    requires { length (lines_of text.now) ≤ 65535 }
    ensures taken { TakesLines text.now result }
    ensures count { IfOk result (λ b. block_count b ≤ length (lines_of text.now)) }
{
    let mut building = Building::new(alloc);
    let mut left = text;
    let mut number = 1;
    while !left.is_empty() {
        let (line, rest) = first_line(left);
        take_line(alloc, &mut building, number, line)?;
        left = rest;
        number += 1;
    }
    Ok(building)
}

impl Script {
    /// Reads a script of at most 1,048,576 bytes and 65,535 lines, else `TooLong`, which is looked at first. A newline
    /// ends a line, and the last line may lack it. `BadLine` names the first line that is out of form, all lines
    /// counted from 1. An empty line is passed over. The other lines are `--`, which ends a block, and commands, whose
    /// words are parted by exactly one blank. A `mount` line and a `stats` line are blocks of their own, and a block
    /// without lines is none. `NoMemory` is want of memory.
    pub fn read(alloc: Global, bytes: &[u8]) -> Result<Script, ScriptError>
        ensures script { IsScript result (script bytes.now) }
    {
        if is_too_long(bytes) {
            return Err(ScriptError::TooLong);
        }
        let building = read_lines(alloc, bytes)?;
        Ok(Script {
            blocks: building.finish()?,
        })
    }

    /// How many blocks there are.
    pub fn blocks_len(&self) -> u32
        ensures { result ≡ length self.now }
    {
        self.blocks.len() as u32
    }

    /// Lends the lines of the block at place `i`, from 0.
    pub fn block(&self, i: u32) -> &[Line]
        requires { i < length self.now }
        ensures { slice_get self.now i ≡ Some result.now }
    {
        self.blocks[i as usize].as_slice()
    }
}

// A missing proof of `Send` or `Sync` shows here, and not first at the threads above.
fn crosses<T: Send + Sync>() {}

fn is_sent<T: Send>() {}

/// A script, its lines and its commands may be shared by threads, and a reply may be sent to another.
pub fn script_crosses() {
    crosses::<Script>();
    crosses::<Line>();
    crosses::<crate::Command>();
    is_sent::<crate::Reply>();
}
