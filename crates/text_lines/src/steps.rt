// One step through a line: up to the next newline or backslash, or the byte that a backslash takes.
ghost use Rattle.std.specs.Prelude.{◌<◌, ◌≤◌, ◌++◌, ℕ, List, IfOk, IfSome, length, drop};
ghost use Rattle.text_lines.specs.Walks.{Lands, IsNear};

use byte_text::Text;
use memchr::{memchr2, memchr2_iter};
use std::alloc::AllocError;

/// How many bytes a step used, whether the line ended with the last of them, and whether that was a backslash that
/// takes the byte behind it.
#[derive(Clone, Copy)]
pub struct Step {
    pub used: usize,
    pub ended: bool,
    pub slash: bool,
}

/// Puts the content of the first bytes of a line behind `content`. `slash` says that a backslash stands before them.
pub fn take_step(bytes: &[u8], slash: bool, content: &mut Text) -> Result<Step, AllocError>
    requires { 0 < length bytes.now }
    ensures some { IfOk result (λ s. 0 < s.used) }
    ensures inside { IfOk result (λ s. s.used ≤ length bytes.now) }
    ensures lands { (u : List ℕ) → IfOk result (λ s. Lands s.ended slash s.slash content.old content.new s.used
        (bytes.now ++ u) (drop s.used bytes.now ++ u)) }
{
    if slash {
        content.push(bytes[0])?;
        return Ok(Step {
            used: 1,
            ended: false,
            slash: false,
        });
    }
    let Some(run) = memchr2(b'\n', b'\\', bytes) else {
        content.extend(bytes)?;
        return Ok(Step {
            used: bytes.len(),
            ended: false,
            slash: false,
        });
    };
    content.extend(&bytes[..run])?;
    if bytes[run] == b'\n' {
        return Ok(Step {
            used: run + 1,
            ended: true,
            slash: false,
        });
    }
    Ok(Step {
        used: run + 1,
        ended: false,
        slash: true,
    })
}

/// How many bytes `near_content` looks at.
const NEAR: usize = 32;

/// The content of the first line, where it ends within the first 32 bytes and has no backslash; None for any other
/// line. Most lines are so short, and this way costs less for each than `take_step` does.
pub fn near_content(bytes: &[u8]) -> Option<&[u8]>
    ensures { IfSome result (λ c. IsNear c.now bytes.now) }
{
    if bytes.len() < NEAR {
        return None;
    }
    let near = &bytes[..NEAR];
    let mut marks = memchr2_iter(b'\n', b'\\', near);
    match marks.next() {
        Some(run) if near[run] == b'\n' => Some(&near[..run]),
        _ => None,
    }
}
