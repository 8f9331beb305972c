// Reading a line: one function a command, over the words behind its first.
ghost use Rattle.mount_script.specs.Words.{texts};
ghost use Rattle.mount_script.specs.Commands.{IsOf, mount_line, named_line, bare_line, search_line};
ghost use Rattle.mount_script.specs.Commands.{fetch_line, read_line, command_from, command_of};
ghost use Rattle.mount_script.specs.declared.command.Command.TheVariants.{Unmount, Clear, Decay, Stats};

use crate::Command;
use crate::error::Misread;
use crate::words::{any_name, mount_name, number_up_to, rest_of_line, small_number, words_of};
use std::alloc::Global;

/// `mount NAME MANIFEST`
fn mount(alloc: Global, words: &[&[u8]]) -> Result<Command, Misread>
    ensures { IsOf result (mount_line (texts words.now)) }
{
    let [name, manifest] = words else {
        return Err(Misread::Form);
    };
    Ok(Command::Mount {
        name: mount_name(alloc, name)?,
        manifest: any_name(alloc, manifest)?,
    })
}

/// `unmount NAME`
fn unmount(alloc: Global, words: &[&[u8]]) -> Result<Command, Misread>
    ensures { IsOf result (named_line Unmount (texts words.now)) }
{
    let [name] = words else {
        return Err(Misread::Form);
    };
    Ok(Command::Unmount {
        name: mount_name(alloc, name)?,
    })
}

/// `clear NAME`
fn clear(alloc: Global, words: &[&[u8]]) -> Result<Command, Misread>
    ensures { IsOf result (named_line Clear (texts words.now)) }
{
    let [name] = words else {
        return Err(Misread::Form);
    };
    Ok(Command::Clear {
        name: mount_name(alloc, name)?,
    })
}

/// `decay`
fn decay(words: &[&[u8]]) -> Result<Command, Misread>
    ensures { IsOf result (bare_line Decay (texts words.now)) }
{
    if !words.is_empty() {
        return Err(Misread::Form);
    }
    Ok(Command::Decay)
}

/// `stats`
fn stats(words: &[&[u8]]) -> Result<Command, Misread>
    ensures { IsOf result (bare_line Stats (texts words.now)) }
{
    if !words.is_empty() {
        return Err(Misread::Form);
    }
    Ok(Command::Stats)
}

/// `search NAME SIZE QUERY`, where the query is the rest of the line.
fn search(alloc: Global, words: &[&[u8]]) -> Result<Command, Misread>
    ensures { IsOf result (search_line (texts words.now)) }
{
    let [name, size, query @ ..] = words else {
        return Err(Misread::Form);
    };
    Ok(Command::Search {
        name: mount_name(alloc, name)?,
        size: small_number(10_000, size)?,
        query: rest_of_line(alloc, query)?,
    })
}

/// `fetch NAME SEGMENT DOC`
fn fetch(alloc: Global, words: &[&[u8]]) -> Result<Command, Misread>
    ensures { IsOf result (fetch_line (texts words.now)) }
{
    let [name, segment, doc] = words else {
        return Err(Misread::Form);
    };
    Ok(Command::Fetch {
        name: mount_name(alloc, name)?,
        segment: any_name(alloc, segment)?,
        doc: small_number(u32::MAX, doc)?,
    })
}

/// `read NAME FILE AT LEN`
fn read(alloc: Global, words: &[&[u8]]) -> Result<Command, Misread>
    ensures { IsOf result (read_line (texts words.now)) }
{
    let [name, file, at, len] = words else {
        return Err(Misread::Form);
    };
    Ok(Command::Read {
        name: mount_name(alloc, name)?,
        file: any_name(alloc, file)?,
        at: number_up_to(u64::MAX, at)?,
        len: small_number(1_048_576, len)?,
    })
}

/// The command of this word, over the words behind it.
fn command_from(alloc: Global, word: &[u8], words: &[&[u8]]) -> Result<Command, Misread>
    ensures { IsOf result (command_from word.now (texts words.now)) }
{
    if word == b"mount".as_slice() {
        mount(alloc, words)
    } else if word == b"unmount".as_slice() {
        unmount(alloc, words)
    } else if word == b"clear".as_slice() {
        clear(alloc, words)
    } else if word == b"decay".as_slice() {
        decay(words)
    } else if word == b"stats".as_slice() {
        stats(words)
    } else if word == b"search".as_slice() {
        search(alloc, words)
    } else if word == b"fetch".as_slice() {
        fetch(alloc, words)
    } else if word == b"read".as_slice() {
        read(alloc, words)
    } else {
        Err(Misread::Form)
    }
}

/// The command of a line.
pub(crate) fn command_of(alloc: Global, line: &[u8]) -> Result<Command, Misread>
    ensures { IsOf result (command_of line.now) }
{
    let words = words_of(alloc, line)?;
    let [word, rest @ ..] = words.as_slice() else {
        return Err(Misread::Form);
    };
    command_from(alloc, word, rest)
}
