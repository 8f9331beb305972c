// Queries over the sample archive, of which clauses know each byte that is read.
use crate::tests::found;
use cache_outside::{MemSource, manifests_in};
use sample_archive::{SampleArchive, sample_blobs};
use std::test::Fail;

const FOX: &str = "{\"term\":{\"body\":\"fox\"}}";

const NOT_RED: &str = "{\"bool\":{\"must_not\":{\"term\":{\"body\":\"red\"}}}}";

const EITHER_2: &str =
    "{\"bool\":{\"should\":[{\"term\":{\"body\":\"fox\"}},{\"term\":{\"body\":\"red\"}}],\"minimum_should_match\":2}}";

const EITHER_3: &str =
    "{\"bool\":{\"should\":[{\"term\":{\"body\":\"fox\"}},{\"term\":{\"body\":\"red\"}}],\"minimum_should_match\":3}}";

#[test]
fn queries_over_the_sample_archive(rt: HostRuntime) -> Result<(), Fail> {
    let alloc = rt.alloc();
    for step in [1, 65_536] {
        for (manifest, query, size, wanted) in [
            ("mount-x", FOX, 10, "2 0/0 0/2"),
            ("mount-x", FOX, 1, "2 0/0"),
            ("mount-x", NOT_RED, 10, "2 0/1 0/2"),
            ("mount-w", NOT_RED, 10, "2 0/1 0/2"),
            ("mount-z", NOT_RED, 10, "1 0/2"),
            ("mount-w", "{\"bool\":{}}", 0, "3"),
            ("mount-w", EITHER_2, 10, "1 0/0"),
            ("mount-w", EITHER_3, 10, "0"),
            ("mount-w", "{\"term\":{\"none\":\"fox\"}}", 10, "0"),
            ("mount-w", "{\"term\":{\"body\":5}}", 10, "bad query"),
        ] {
            let blobs = sample_blobs(alloc)?;
            assert!(rt; manifests_in(&blobs) <= 65_536);
            let mut source = MemSource::<SampleArchive>::new(alloc, blobs, step, Vec::new(alloc));
            let text = found(alloc, &mut source, manifest, query, size)?;
            assert_eq!(rt; text.as_str(), wanted, "{manifest} {query} at step {step}");
        }
    }
    Ok(())
}
