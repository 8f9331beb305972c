// The rows that are made: which documents have which term.
ghost use Rattle.std.specs.Prelude.{◌≡◌, ◌<◌, ◌*◌, IfOk, OnOk, OnErr};
ghost use Rattle.shard_maker.specs.Draws.{state};
ghost use Rattle.shard_maker.specs.MadeRows.{digit, term_name, row, made_rows};
ghost use Rattle.shard_maker.specs.Made.{AreLimits};

use crate::draws::Draws;
use byte_text::Text;
use simpletext_postings::{Positions, Row, Rows};
use std::alloc::{AllocError, Global};

/// The decimal digit of a number at a place.
fn digit(n: u32, place: u32) -> u8
    requires { 0 < place }
    ensures { result ≡ digit n place }
{
    b'0' + (n / place % 10) as u8
}

/// The term with a number.
pub(crate) fn term_name(alloc: Global, term: u32) -> Result<Text, AllocError>
    ensures { IfOk result (λ t. t ≡ term_name term) }
{
    let bytes = [
        b't',
        digit(term, 10_000),
        digit(term, 1000),
        digit(term, 100),
        digit(term, 10),
        digit(term, 1),
    ];
    Text::of(alloc, &bytes)
}

/// The row of a term in a document.
fn row(alloc: Global, term: u32, doc: u32) -> Result<Row, AllocError>
    ensures { IfOk result (λ r. r ≡ row term doc) }
{
    let mut positions = Positions::new(alloc);
    positions.push(term)?;
    Ok(Row {
        field: Text::of(alloc, b"body")?,
        term: term_name(alloc, term)?,
        doc,
        positions,
    })
}

/// The rows of all pairs of a term and a document for which 0 is drawn.
pub(crate) fn made_rows(
    alloc: Global,
    draws: &mut Draws,
    docs: u32,
    terms: u32,
) -> Result<Rows, AllocError>
    requires { AreLimits docs terms }
    ensures docs { IfOk result (λ r. r.docs ≡ docs) }
    ensures state { OnOk result (draws.new.state ≡ state draws.old.state (docs * terms)) }
    ensures rows { IfOk result (λ r. r.rows ≡ made_rows draws.old.state docs terms) }
{
    let mut rows = Rows::new(alloc, docs);
    for n in 0..docs * terms {
        if draws.draw(16) == 0 {
            rows.push(row(alloc, n / docs, n % docs)?)?;
        }
    }
    Ok(rows)
}
