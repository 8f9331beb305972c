// Tests, one file a crate, and one of sets beside plain words.
mod doc_bits_tests;
mod lane_tests;
mod plain;
mod query_lang_tests;
