//! Tests of manifests, part tables and reads of blobs, over the public calls of blob_parts.
#![tactic(auto)]

#[cfg(test)]
mod example;
#[cfg(test)]
mod many_parts;
#[cfg(test)]
mod tests;
