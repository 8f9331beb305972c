// A reader of the lines of an input, which reads ahead in pieces.
ghost use Rattle.std.specs.Prelude.{◌≡◌, ◌<◌, ◌≤◌, ◌+◌, ◌-◌, ◌^◌, [], IsTrue, IfOk, IfSome, OnOk, OnErr, IfErr, min};
ghost use Rattle.std.specs.Prelude.{length, take};
ghost use Rattle.directory_input.specs.Files.{FilesView};
ghost use Rattle.directory_input.specs.Windows.{FitsFile, moved_to};
ghost use Rattle.directory_input.specs.Causes.{HasBytesCause, refusal};
ghost use Rattle.text_lines.specs.Readers.{FitsBytes, ReadsPieces, ReadsLine, Places, Moved, Steps, Came, HasMore};
ghost use Rattle.text_lines.specs.Readers.{IsOfBytes, rest, line_answer, line_of, line_refusal, bytes_ahead, piece_of};
ghost use Rattle.text_lines.specs.Readers.{LendsLine, skip_of};

use crate::steps::{Step, near_content, take_step};
use byte_text::Text;
use directory_input::{BytesError, FileBytes, Input, InputError};
use std::alloc::{AllocError, Global};
use std::marker::Model;

/// How many bytes are read at once.
const PIECE: usize = 65_536;

/// The greatest number of bytes of a line, its end counted.
const LINE_LIMIT: u64 = 16_777_216;

/// A line of a text.
#[derive(Drop)]
pub struct Line {
    /// Where it begins, in bytes from the start of the input.
    pub at: u64,
    /// Its bytes without the newline that ends it and without the backslashes that took a byte.
    pub content: Text,
}

/// Why there is no next line. `at` is where it begins, in bytes from the start of the input.
#[derive(Clone, Copy, Debug, PartialEq, Eq)]
pub enum LineError {
    /// The input ends inside the line, which has at most 16,777,216 bytes.
    Unended { at: u64 },
    /// The line has more than 16,777,216 bytes, its end counted, whether the input ends it or not.
    TooLong { at: u64 },
    /// What gives the bytes refused, or there was no memory.
    Bytes(BytesError),
}

impl From<AllocError> for LineError {
    ghost use Rattle.text_lines.specs.declared.reader.LineError.TheVariants.{Bytes};
    ghost use Rattle.directory_input.specs.declared.files.BytesError.TheVariants.{NoMemory};

    ghost from_gives = { λ _ e. e ≡ Bytes NoMemory };

    fn from(_: AllocError) -> Self {
        LineError::Bytes(BytesError::NoMemory)
    }
}

/// Fills the front of `buffer` with the bytes at the input's position, as many as there are; says how many.
fn read_piece<B: FileBytes>(
    input: &mut Input,
    bytes: &mut B,
    buffer: &mut [u8],
) -> Result<usize, BytesError>
    requires { FitsFile (B.view bytes.old) input.old }
    ensures count { IfOk result (λ n. n ≡ min (length buffer.old) (input.old.size - input.old.position)) }
    ensures moved { IfOk result (λ n. input.new ≡ moved_to (input.old.position + n) input.old) }
    ensures stays { OnErr result (input.new ≡ input.old) }
    ensures inside { IfOk result (λ n. n ≤ length buffer.new) }
    ensures len { length buffer.new ≡ length buffer.old }
    ensures bytes { IsTrue (B.view bytes.old).tells
        → IfOk result (λ n. take n buffer.new ≡ bytes_ahead (B.view bytes.old) input.old n) }
    ensures goes { B.goes_by (piece_of input.old (length buffer.old)) bytes.old bytes.new }
    ensures fits { FitsFile (B.view bytes.new) input.new }
    ensures cause { HasBytesCause (B.view bytes.old) (B.view bytes.new) (refusal result) }
{
    let left = input.len() - input.pos();
    let count = buffer.len().min(left as usize);
    match input.read(bytes, &mut buffer[..count]) {
        Ok(()) => Ok(count),
        Err(InputError::Bytes(e)) => Err(e),
        Err(InputError::PastEnd { .. }) => unreachable!(),
    }
}

/// Reads the lines of an input from its position on, one after the other.
#[derive(Drop)]
pub struct LineReader {
    alloc: Global,
    // it stands behind what was read ahead
    input: Input,
    // where the bytes from `from` on stand, counted from the start of the input
    place: u64,
    buffer: Vec<u8>,
    from: usize,
    till: usize,
}

impl Model for LineReader {
    ghost use Rattle.std.specs.Prelude.{◌-◌, length, take, drop};
    ghost use Rattle.directory_input.specs.Windows.{moved_to};
    ghost use Rattle.text_lines.specs.Readers.{Reading, IsBuffered};

    ghost Value = { Reading };

    ghost view = { λ r.
        record { input = moved_to r.place r.input; ahead = take (r.till - r.from) (drop r.from r.buffer.items) } };

    ghost invariant = { λ r. IsBuffered r.input r.place (length r.buffer.items) r.from r.till };
}

impl LineReader {
    /// A reader of the lines of this input from its position on.
    pub fn new(alloc: Global, input: Input) -> Result<LineReader, AllocError>
        ensures stands { IfOk result (λ r. r ≡ record { input = input; ahead = [] }) }
        ensures fits { (files : FilesView) → FitsFile files input → IfOk result (FitsBytes files) }
    {
        let place = input.pos();
        let room = if input.len() < PIECE as u64 {
            input.len() as usize
        } else {
            PIECE
        };
        let buffer = vec![in alloc; 0u8; room]?;
        Ok(LineReader {
            alloc,
            input,
            place,
            buffer,
            from: 0,
            till: 0,
        })
    }

    /// Where the next line begins, in bytes from the start of the input.
    pub fn pos(&self) -> u64
        ensures { result ≡ self.now.input.position }
    {
        self.place
    }

    /// The bytes that were read ahead.
    fn unread(&self) -> &[u8]
        ensures bytes { result.now ≡ self.now.ahead }
        ensures place { self.now.input.position + length self.now.ahead < 2 ^ 64 }
    {
        &self.buffer[self.from..self.till]
    }

    /// The content of the line that begins here, lent from what was read ahead, where it ends within the first 32 bytes
    /// of that and has no backslash; None for any other line. `next_in` gives every line.
    pub fn near(&self) -> Option<&[u8]>
        ensures inside { IfSome result (λ c. length c.now < length self.now.ahead) }
        ensures place { IfSome result (λ c. self.now.input.position + (length c.now + 1) < 2 ^ 64) }
        ensures line { (files : FilesView) → FitsBytes files self.now
            → IfSome result (λ c. LendsLine files self.now c.now) }
    {
        near_content(self.unread())
    }

    /// Leaves so many of the bytes that were read ahead behind: for a line that `near` lends, those of its content and
    /// the newline.
    pub fn pass(&mut self, count: usize)
        requires { count ≤ length self.old.ahead }
        ensures left { self.new ≡ skip_of self.old count }
        ensures fits { (files : FilesView) → FitsBytes files self.old → FitsBytes files self.new }
    {
        self.from += count;
        self.place += count as u64;
    }

    /// Goes back to a place, with nothing read ahead.
    fn back(&mut self, place: u64)
        requires { place ≤ self.old.input.size }
        ensures { self.new ≡ record { input = moved_to place self.old.input; ahead = [] } }
    {
        let _ = self.input.seek(place);
        self.place = place;
        self.from = 0;
        self.till = 0;
    }

    /// Reads the next piece, where nothing is read ahead and the input has not ended.
    fn fill<B: FileBytes>(&mut self, bytes: &mut B) -> Result<(), BytesError>
        requires fits { FitsBytes (B.view bytes.old) self.old }
        requires none { self.old.ahead ≡ [] }
        requires left { self.old.input.position < self.old.input.size }
        ensures some { OnOk result (0 < length self.new.ahead) }
        ensures input { self.new.input ≡ self.old.input }
        ensures fits { FitsBytes (B.view bytes.new) self.new }
        ensures pieces { ReadsPieces B.goes_by self.old.input bytes.old bytes.new }
        ensures cause { HasBytesCause (B.view bytes.old) (B.view bytes.new) (refusal result) }
    {
        self.from = 0;
        self.till = 0;
        match read_piece(&mut self.input, bytes, self.buffer.as_mut_slice()) {
            Ok(count) => {
                self.till = count;
                Ok(())
            }
            Err(e) => Err(e),
        }
    }

    /// Reads the next piece where all that was read ahead is used; false where the input has ended.
    fn more<B: FileBytes>(&mut self, bytes: &mut B) -> Result<bool, BytesError>
        requires { FitsBytes (B.view bytes.old) self.old }
        ensures has { IfOk result (λ b. HasMore b self.new) }
        ensures input { self.new.input ≡ self.old.input }
        ensures fits { FitsBytes (B.view bytes.new) self.new }
        ensures pieces { ReadsPieces B.goes_by self.old.input bytes.old bytes.new }
        ensures cause { HasBytesCause (B.view bytes.old) (B.view bytes.new) (refusal result) }
    {
        if !self.unread().is_empty() {
            return Ok(true);
        }
        if self.place == self.input.len() {
            return Ok(false);
        }
        match self.fill(bytes) {
            Ok(()) => Ok(true),
            Err(e) => Err(e),
        }
    }

    /// One step through the line, whose content so far is `content`; None where the input has ended.
    fn advance<B: FileBytes>(
        &mut self,
        bytes: &mut B,
        slash: bool,
        content: &mut Text,
    ) -> Result<Option<Step>, LineError>
        requires { FitsBytes (B.view bytes.old) self.old }
        ensures only { IfErr result IsOfBytes }
        ensures moved { Moved result self.old.input self.new.input }
        ensures steps { IsTrue (B.view bytes.old).tells → Steps result slash content.old content.new
            (rest (B.view bytes.old).bytes self.old.input) (rest (B.view bytes.old).bytes self.new.input) }
        ensures fits { FitsBytes (B.view bytes.new) self.new }
        ensures pieces { ReadsPieces B.goes_by self.old.input bytes.old bytes.new }
        ensures cause { HasBytesCause (B.view bytes.old) (B.view bytes.new) (line_refusal result) }
    {
        match self.more(bytes) {
            Ok(true) => {}
            Ok(false) => return Ok(None),
            Err(e) => return Err(LineError::Bytes(e)),
        }
        let step = take_step(self.unread(), slash, content)?;
        self.pass(step.used);
        Ok(Some(step))
    }

    /// `read_line` for any line, step by step. It is never inlined, so that the common line pays for none of it.
    #[inline(never)]
    fn walk_line<B: FileBytes>(
        &mut self,
        bytes: &mut B,
        content: &mut Text,
    ) -> Result<bool, LineError>
        requires fits { FitsBytes (B.view bytes.old) self.old }
        requires empty { content.old ≡ [] }
        ensures came { Came result self.old.input.position self.new.input.position self.old.input.size }
        ensures input { self.new.input ≡ moved_to self.new.input.position self.old.input }
        ensures line { ReadsLine (B.view bytes.old) (line_answer result (line_of self.old.input.position content.new))
            self.old.input self.new.input }
        ensures fits { FitsBytes (B.view bytes.new) self.new }
        ensures pieces { ReadsPieces B.goes_by self.old.input bytes.old bytes.new }
        ensures cause { HasBytesCause (B.view bytes.old) (B.view bytes.new) (line_refusal result) }
    {
        let at = self.place;
        let mut size: u64 = 0;
        let mut slash = false;
        loop {
            match self.advance(bytes, slash, content) {
                Ok(Some(step)) => {
                    size += step.used as u64;
                    if size > LINE_LIMIT {
                        return Err(LineError::TooLong { at });
                    }
                    if step.ended {
                        return Ok(true);
                    }
                    slash = step.slash;
                }
                Ok(None) if size == 0 => return Ok(false),
                Ok(None) => return Err(LineError::Unended { at }),
                Err(e) => return Err(e),
            }
        }
    }

    /// Reads the line that begins here; false where the input has ended. After a refusal it may stand anywhere.
    fn read_line<B: FileBytes>(
        &mut self,
        bytes: &mut B,
        content: &mut Text,
    ) -> Result<bool, LineError>
        requires fits { FitsBytes (B.view bytes.old) self.old }
        requires empty { content.old ≡ [] }
        ensures came { Came result self.old.input.position self.new.input.position self.old.input.size }
        ensures input { self.new.input ≡ moved_to self.new.input.position self.old.input }
        ensures line { ReadsLine (B.view bytes.old) (line_answer result (line_of self.old.input.position content.new))
            self.old.input self.new.input }
        ensures fits { FitsBytes (B.view bytes.new) self.new }
        ensures pieces { ReadsPieces B.goes_by self.old.input bytes.old bytes.new }
        ensures cause { HasBytesCause (B.view bytes.old) (B.view bytes.new) (line_refusal result) }
    {
        if let Some(near) = self.near() {
            content.extend(near)?;
            let count = near.len() + 1;
            self.pass(count);
            return Ok(true);
        }
        self.walk_line(bytes, content)
    }

    /// Puts the next line into `line`, whose room is used again; false exactly where the input has ended. `TooLong`
    /// comes exactly where the line that begins here has more than 16,777,216 bytes, its end counted, and `Unended`
    /// exactly where the input ends inside it and it has at most as many. After any refusal the reader stands at that
    /// line's start, so that the next call reads it again, and `line` may hold anything.
    pub fn next_in<B: FileBytes>(
        &mut self,
        bytes: &mut B,
        line: &mut Line,
    ) -> Result<bool, LineError>
        requires { FitsBytes (B.view bytes.old) self.old }
        ensures places { Places (line_answer result line.new)
            self.old.input.position self.new.input.position self.old.input.size }
        ensures input { self.new.input ≡ moved_to self.new.input.position self.old.input }
        ensures line { ReadsLine (B.view bytes.old) (line_answer result line.new) self.old.input self.new.input }
        ensures fits { FitsBytes (B.view bytes.new) self.new }
        ensures pieces { ReadsPieces B.goes_by self.old.input bytes.old bytes.new }
        ensures cause { HasBytesCause (B.view bytes.old) (B.view bytes.new) (line_refusal result) }
    {
        let at = self.pos();
        line.at = at;
        line.content.clear();
        match self.read_line(bytes, &mut line.content) {
            Ok(true) => Ok(true),
            Ok(false) => Ok(false),
            Err(e) => {
                self.back(at);
                Err(e)
            }
        }
    }

    /// The next line; None exactly where the input has ended. `TooLong` comes exactly where the line that begins here
    /// has more than 16,777,216 bytes, its end counted, and `Unended` exactly where the input ends inside it and it has
    /// at most as many. After any refusal the reader stands at that line's start, so that the next call reads it again.
    pub fn next_line<B: FileBytes>(&mut self, bytes: &mut B) -> Result<Option<Line>, LineError>
        requires { FitsBytes (B.view bytes.old) self.old }
        ensures places { Places result self.old.input.position self.new.input.position self.old.input.size }
        ensures input { self.new.input ≡ moved_to self.new.input.position self.old.input }
        ensures line { ReadsLine (B.view bytes.old) result self.old.input self.new.input }
        ensures fits { FitsBytes (B.view bytes.new) self.new }
        ensures pieces { ReadsPieces B.goes_by self.old.input bytes.old bytes.new }
        ensures cause { HasBytesCause (B.view bytes.old) (B.view bytes.new) (line_refusal result) }
    {
        let mut line = Line {
            at: 0,
            content: Text::new(self.alloc),
        };
        match self.next_in(bytes, &mut line) {
            Ok(true) => Ok(Some(line)),
            Ok(false) => Ok(None),
            Err(e) => Err(e),
        }
    }
}
