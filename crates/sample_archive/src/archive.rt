// The sample archive by its name, a type that tells.
use cache_outside::Archive;

/// The sample archive, whose blobs clauses know.
#[derive(Drop)]
pub struct SampleArchive;

impl Archive for SampleArchive {
    ghost use Rattle.std.specs.Prelude.{true};
    ghost use Rattle.sample_archive.specs.Sample.{sample, few_sample, few_manifests_sample, different_sample};

    ghost tells = { true };

    ghost blobs = { sample };

    ghost few = { few_sample };

    ghost few_manifests = { few_manifests_sample };

    ghost different = { different_sample };
}
