// What a text says as a script, shown as one text: each block in brackets, and each line by its number and its words.
use mount_script::{Command, Line, Script, ScriptError};
use std::alloc::{AllocError, Global};

fn command_text(alloc: Global, command: &Command) -> Result<String, AllocError> {
    match command {
        Command::Mount { name, manifest } => {
            let (name, manifest) = (name.as_str(), manifest.as_str());
            format!(in alloc; "mount {name} {manifest}")
        }
        Command::Unmount { name } => format!(in alloc; "unmount {}", name.as_str()),
        Command::Clear { name } => format!(in alloc; "clear {}", name.as_str()),
        Command::Decay => String::from_str(alloc, "decay"),
        Command::Stats => String::from_str(alloc, "stats"),
        Command::Search { name, size, query } => {
            let name = name.as_str();
            let query = std::str::from_utf8(query.as_bytes()).unwrap_or("no text");
            format!(in alloc; "search {name} {size} <{query}>")
        }
        Command::Fetch { name, segment, doc } => {
            let (name, segment) = (name.as_str(), segment.as_str());
            format!(in alloc; "fetch {name} {segment} {doc}")
        }
        Command::Read {
            name,
            file,
            at,
            len,
        } => {
            let (name, file) = (name.as_str(), file.as_str());
            format!(in alloc; "read {name} {file} {at} {len}")
        }
    }
}

fn push_block(alloc: Global, text: &mut String, block: &[Line]) -> Result<(), AllocError> {
    text.push_str("[")?;
    for line in block {
        let number = line.number;
        let command = command_text(alloc, &line.command)?;
        let piece = format!(in alloc; "{number} {command};")?;
        text.push_str(piece.as_str())?;
    }
    text.push_str("]")
}

fn script_text(alloc: Global, script: &Script) -> Result<String, AllocError> {
    let mut text = String::new(alloc);
    for i in 0..script.blocks_len() {
        push_block(alloc, &mut text, script.block(i))?;
    }
    Ok(text)
}

/// The blocks of a script, or why the bytes are none.
pub fn outcome(alloc: Global, bytes: &[u8]) -> Result<String, AllocError> {
    match Script::read(alloc, bytes) {
        Ok(script) => script_text(alloc, &script),
        Err(ScriptError::TooLong) => String::from_str(alloc, "too long"),
        Err(ScriptError::BadLine { line }) => format!(in alloc; "line {line}"),
        Err(ScriptError::NoMemory) => String::from_str(alloc, "no memory"),
    }
}
