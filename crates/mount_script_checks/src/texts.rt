// The texts of replies.
use byte_text::{Name, Text};
use mount_script::{Fields, Reply, Shown};
use std::alloc::{AllocError, Global};
use std::test::Fail;

/// Hits in the segment `_0`, of these documents.
fn hits(alloc: Global, total: u64, docs: &[u32]) -> Result<Reply, AllocError> {
    let mut shown = Shown::new(alloc);
    for doc in docs {
        if let Some(name) = Name::read(alloc, b"_0")? {
            shown.push((name, *doc))?;
        }
    }
    Ok(Reply::Hits { total, shown })
}

fn fields(alloc: Global, list: &[(&str, &str, &str)]) -> Result<Reply, AllocError> {
    let mut fields = Fields::new(alloc);
    for (name, kind, value) in list {
        fields.push((
            Text::of(alloc, name.as_bytes())?,
            Text::of(alloc, kind.as_bytes())?,
            Text::of(alloc, value.as_bytes())?,
        ))?;
    }
    Ok(Reply::Fields { fields })
}

fn bytes(alloc: Global, bytes: &[u8]) -> Result<Reply, AllocError> {
    Ok(Reply::Bytes {
        bytes: Text::of(alloc, bytes)?,
    })
}

fn refused(alloc: Global, text: &str) -> Result<Reply, AllocError> {
    Ok(Reply::Refused {
        text: Text::of(alloc, text.as_bytes())?,
    })
}

fn stats(n: u64) -> Reply {
    Reply::Stats {
        free: 0,
        listed: 1,
        leaving: u32::MAX,
        evictions: 2,
        promotions: 0,
        demotions: n,
        fetched: 12_288,
        direct: 7,
    }
}

fn replies(alloc: Global) -> Result<Vec<(Reply, &'static str)>, AllocError> {
    let replies = vec![in alloc;
        (
            Reply::Mounted { files: 1, docs: 3 },
            "mounted 1 files 3 docs"
        ),
        (Reply::Unmounted, "unmounted"),
        (Reply::Cleared, "cleared"),
        (Reply::Decayed, "decayed"),
        (hits(alloc, 2, &[0, 2])?, "hits 2 _0/0 _0/2"),
        (hits(alloc, 2, &[0])?, "hits 2 _0/0"),
        (hits(alloc, 3, &[])?, "hits 3"),
        (
            fields(alloc, &[("title", "string", "red fox")])?,
            "fields 1 dGl0bGU=:string:cmVkIGZveA=="
        ),
        (
            fields(alloc, &[("", "int", "-2"), ("ab", "binary", "")])?,
            "fields 2 :int:LTI= YWI=:binary:"
        ),
        (fields(alloc, &[])?, "fields 0"),
        (bytes(alloc, b" red")?, "bytes 4 20726564"),
        (bytes(alloc, b"\x00\xff")?, "bytes 2 00ff"),
        (bytes(alloc, b"")?, "bytes 0"),
        (
            stats(u64::MAX),
            "stats free 0 listed 1 leaving 4294967295 evictions 2 promotions 0 demotions 18446744073709551615 \
             fetched 12288 direct 7"
        ),
        (refused(alloc, "not mounted")?, "not mounted"),
        (Reply::Fault, "fault"),
        (Reply::Gone, "gone"),
        (Reply::NoMemory, "no memory"),
    ]?;
    Ok(replies)
}

#[test]
fn gives_the_texts_of_replies(rt: HostRuntime) -> Result<(), Fail> {
    let alloc = rt.alloc();
    for (reply, wanted) in &replies(alloc)? {
        let text = reply.text(alloc)?;
        assert_eq!(rt; text.as_bytes(), wanted.as_bytes());
    }
    Ok(())
}

/// What a list lends at each place, and how many it has.
#[test]
fn lends_what_was_pushed(rt: HostRuntime) -> Result<(), Fail> {
    let alloc = rt.alloc();
    let Reply::Hits { shown, .. } = hits(alloc, 9, &[4, 5])? else {
        return Ok(());
    };
    assert_eq!(rt; shown.len(), 2);
    assert!(rt; !shown.is_empty());
    Ok(())
}
