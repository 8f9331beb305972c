// Tests of the reading and printing of queries.
use byte_text::Text;
use query_lang::{Query, QueryError};
use std::alloc::{AllocError, Global};

fn refusal(alloc: Global, text: &[u8]) -> Option<QueryError> {
    match Query::read(alloc, text) {
        Ok(_) => None,
        Err(e) => Some(e),
    }
}

/// So many times the first text, and so many times the second behind it.
fn nested(alloc: Global, n: usize, front: &str, back: &str) -> Result<Text, AllocError> {
    let mut text = Text::new(alloc);
    for _ in 0..n {
        text.extend(front.as_bytes())?;
    }
    for _ in 0..n {
        text.extend(back.as_bytes())?;
    }
    Ok(text)
}

#[test]
fn prints_what_was_read(rt: HostRuntime) -> Result<(), QueryError> {
    let alloc = rt.alloc();
    for (text, wanted) in [
        ("{\"match_all\" : { } }", "{\"match_all\":{}}"),
        (
            "{\"term\":{\"body\":{\"value\":\"fox\"}}}",
            "{\"term\":{\"body\":\"fox\"}}",
        ),
        (
            "{\"bool\":{\"must_not\":{\"match_all\":{}},\"should\":[]}}",
            "{\"bool\":{\"must_not\":[{\"match_all\":{}}]}}",
        ),
        (
            "{\"bool\":{\"should\":[{\"term\":{\"b\":\"\\u00e9\\\"\"}},{\"term\":{\"b\":\"y\"}}],\"minimum_should_match\":0,\"filter\":{\"bool\":{}}}}",
            "{\"bool\":{\"filter\":[{\"bool\":{}}],\"minimum_should_match\":0,\"should\":[{\"term\":{\"b\":\"é\\\"\"}},{\"term\":{\"b\":\"y\"}}]}}",
        ),
    ] {
        let query = Query::read(alloc, text.as_bytes())?;
        let printed = query.print(alloc)?;
        assert_eq!(rt; printed.as_bytes(), wanted.as_bytes());
    }
    Ok(())
}

#[test]
fn refuses_what_is_no_query(rt: HostRuntime) {
    let alloc = rt.alloc();
    for text in ["", "{", "{}}", "{\"match_all\":{}} x"] {
        assert_eq!(rt; refusal(alloc, text.as_bytes()), Some(QueryError::NotJson));
    }
    assert_eq!(rt; refusal(alloc, b"\"\xff\""), Some(QueryError::NotJson));
    for text in [
        "5",
        "{}",
        "{\"bool\":[]}",
        "{\"term\":{}}",
        "{\"term\":{\"a\":\"b\",\"c\":\"d\"}}",
        "{\"term\":{\"a\":5}}",
        "{\"term\":{\"a\":{\"value\":\"b\",\"boost\":2}}}",
        "{\"bool\":{\"minimum_should_match\":-1}}",
        "{\"bool\":{\"minimum_should_match\":1.5}}",
        "{\"bool\":{\"must\":[5]}}",
        "{\"bool\":{\"may\":[]}}",
        "{\"match_all\":{},\"term\":{\"a\":\"b\"}}",
    ] {
        assert_eq!(rt; refusal(alloc, text.as_bytes()), Some(QueryError::Shape));
    }
}

#[test]
fn limits_nesting(rt: HostRuntime) -> Result<(), QueryError> {
    let alloc = rt.alloc();
    // the innermost `bool` has no clause, so its list is empty
    let deep = nested(alloc, 32, "{\"bool\":{\"must\":[", "]}}")?;
    assert_eq!(rt; refusal(alloc, deep.as_bytes()), None);
    let deeper = nested(alloc, 33, "{\"bool\":{\"must\":[", "]}}")?;
    assert_eq!(rt; refusal(alloc, deeper.as_bytes()), Some(QueryError::Depth));
    let arrays = nested(alloc, 127, "[", "]")?;
    assert_eq!(rt; refusal(alloc, arrays.as_bytes()), Some(QueryError::Shape));
    let more = nested(alloc, 128, "[", "]")?;
    assert_eq!(rt; refusal(alloc, more.as_bytes()), Some(QueryError::NotJson));
    Ok(())
}
