// The script that searches what is made.
ghost use Rattle.std.specs.Prelude.{◌≡◌, ◌<◌, ◌++◌, IfOk, OnOk, Ok};
ghost use Rattle.mount_script.specs.Scripts.{script};
ghost use Rattle.shard_maker.specs.Searches.{term_query, pair_query, query_text, search_bytes, script_from};

use crate::draws::Draws;
use crate::rows::term_name;
use byte_text::Text;
use std::alloc::{AllocError, Global};

/// The query of one term.
fn push_term(alloc: Global, text: &mut Text, term: u32) -> Result<(), AllocError>
    ensures { OnOk result (text.new ≡ text.old ++ term_query term) }
{
    text.extend(b"{\"term\":{\"body\":\"")?;
    text.extend(term_name(alloc, term)?.as_bytes())?;
    text.extend(b"\"}}")?;
    Ok(())
}

/// The queries of two terms, with what stands before, between and behind them.
fn push_pair(
    alloc: Global,
    text: &mut Text,
    front: &[u8],
    a: u32,
    middle: &[u8],
    b: u32,
    back: &[u8],
) -> Result<(), AllocError>
    ensures { OnOk result (text.new ≡ text.old ++ pair_query front.now middle.now back.now a b) }
{
    text.extend(front)?;
    push_term(alloc, text, a)?;
    text.extend(middle)?;
    push_term(alloc, text, b)?;
    text.extend(back)?;
    Ok(())
}

/// Query number `i` over two terms: the first alone, both, one or the other, the first without the second.
fn push_query(alloc: Global, text: &mut Text, i: u32, a: u32, b: u32) -> Result<(), AllocError>
    ensures { OnOk result (text.new ≡ text.old ++ query_text i a b) }
{
    match i % 4 {
        0 => push_term(alloc, text, a),
        1 => push_pair(alloc, text, b"{\"bool\":{\"must\":[", a, b",", b, b"]}}"),
        2 => push_pair(alloc, text, b"{\"bool\":{\"should\":[", a, b",", b, b"]}}"),
        _ => push_pair(
            alloc,
            text,
            b"{\"bool\":{\"must\":",
            a,
            b",\"must_not\":",
            b,
            b"}}",
        ),
    }
}

/// The line of search number `i`.
fn push_search(alloc: Global, text: &mut Text, i: u32, a: u32, b: u32) -> Result<(), AllocError>
    ensures { OnOk result (text.new ≡ text.old ++ search_bytes (query_text i a b)) }
{
    text.extend(b"search made 10 ")?;
    push_query(alloc, text, i, a, b)?;
    text.push(b'\n')?;
    Ok(())
}

/// The script: a mount and 64 searches, each over two terms that are drawn.
pub(crate) fn made_script(alloc: Global, draws: &mut Draws, terms: u32) -> Result<Text, AllocError>
    requires { 0 < terms }
    ensures { IfOk result (λ t. script t ≡ Ok (script_from draws.old.state terms)) }
{
    let mut text = Text::of(alloc, b"mount made mount-made\n")?;
    for i in 0..64 {
        let a = draws.draw(terms);
        let b = draws.draw(terms);
        push_search(alloc, &mut text, i, a, b)?;
    }
    Ok(text)
}
