// The text of a script, from its source.
ghost use Rattle.std.specs.Prelude.{◌≡◌, ◌≤◌, IfOk, length, take};
ghost use Rattle.cache_outside.specs.Causes.{HasCause};
ghost use Rattle.run_setup.specs.Texts.{IsRead, TookAtMost, most_read};

use byte_text::Text;
use cache_outside::{OutError, TextSource};
use std::alloc::Global;

/// One byte more than a script may have.
const MOST: usize = 1_048_577;

/// Fills `buffer` from its beginning, until it is full or the text ends, and says how many bytes it has then.
fn fill<T: TextSource>(source: &mut T, buffer: &mut [u8]) -> Result<usize, OutError>
    requires { length buffer.old ≡ most_read }
    ensures len { length buffer.new ≡ most_read }
    ensures count { IfOk result (λ n. n ≤ most_read) }
    ensures read { IfOk result (λ n. IsRead (T.view source.old).left (take n buffer.new)) }
    ensures left { TookAtMost most_read (T.view source.old).left (T.view source.new).left }
    ensures cause { HasCause (T.view source.old).faults (T.view source.new).faults result }
{
    let mut count = 0;
    while count < MOST {
        let given = source.read(&mut buffer[count..])?;
        if given == 0 {
            break;
        }
        count += given;
    }
    Ok(count)
}

/// Reads a text to its end, or to its 1,048,577th byte, which shows that it is too long for a script. No more bytes are
/// asked for.
///
/// `Failed` comes only where the source's count of failures rose in this call, and `NoMemory` is want of memory.
pub fn read_script<T: TextSource>(alloc: Global, source: &mut T) -> Result<Text, OutError>
    ensures read { IfOk result (IsRead (T.view source.old).left) }
    ensures few { IfOk result (λ text. length text ≤ most_read) }
    ensures left { TookAtMost most_read (T.view source.old).left (T.view source.new).left }
    ensures cause { HasCause (T.view source.old).faults (T.view source.new).faults result }
{
    let Ok(mut buffer) = vec![in alloc; 0; MOST] else {
        return Err(OutError::NoMemory);
    };
    match fill(source, &mut buffer) {
        Ok(count) => {
            buffer.truncate(count);
            Ok(Text::from_vec(buffer))
        }
        Err(e) => Err(e),
    }
}
