//! The replies to commands on a mounted shard, over the bytes of its whole files, and the loading of a mount.
#![tactic(auto)]

mod fetching;
mod loading;
mod reading;
mod searching;
mod words;

pub use byte_text::{Name, Text};
pub use fetching::fetch_reply;
pub use loading::{MountError, load_mount, mounted_reply};
pub use mount_script::Reply;
pub use reading::read_reply;
pub use searching::{query_reply, search_reply};
pub use words::kind_word;
