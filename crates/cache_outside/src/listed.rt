// Looking up names in a list of blobs.
ghost use Rattle.std.specs.Prelude.{◌≡◌, ◌<◌, length};
ghost use Rattle.cache_outside.specs.Listing.{is_manifest_name, manifests, place_of, manifest_number, blob_bytes};

use byte_text::Blobs;

/// How many of the blobs are manifests: those whose name begins with `mount-`.
pub fn manifests_in(blobs: &Blobs) -> usize
    ensures { result ≡ length (manifests blobs.now) }
{
    let mut count: usize = 0;
    for i in 0..blobs.len() {
        if is_manifest_name(blobs.get(i).0.as_str()) {
            count += 1;
        }
    }
    count
}

/// Whether a blob of this name is a manifest.
pub(crate) fn is_manifest_name(name: &str) -> bool
    ensures { result ≡ is_manifest_name name.now }
{
    name.as_bytes().starts_with(b"mount-")
}

/// The number of the blob with this name.
pub(crate) fn place(blobs: &Blobs, name: &str) -> Option<usize>
    ensures { result ≡ place_of name.now blobs.now }
{
    for i in 0..blobs.len() {
        if blobs.get(i).0.as_str() == name {
            return Some(i);
        }
    }
    None
}

/// The number of the manifest with this name.
pub(crate) fn number(blobs: &Blobs, name: &str) -> Option<usize>
    ensures { result ≡ manifest_number name.now blobs.now }
{
    let mut count: usize = 0;
    for i in 0..blobs.len() {
        let own = blobs.get(i).0.as_str();
        if is_manifest_name(own) {
            if own == name {
                return Some(count);
            }
            count += 1;
        }
    }
    None
}

/// The bytes of blob `k`.
pub(crate) fn bytes_at(blobs: &Blobs, k: usize) -> &[u8]
    requires { k < length blobs.now }
    ensures { result.now ≡ blob_bytes blobs.now k }
{
    blobs.get(k).1.as_bytes()
}
