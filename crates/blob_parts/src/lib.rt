// The bytes of the files of a mounted index, read from the blobs of their parts.
#![tactic(auto)]

mod direct;
mod loading;
mod piece;
mod read;
mod resolving;
mod table;

pub use direct::DirectBytes;
pub use loading::{LoadError, load};
pub use piece::{Piece, fetch};
pub use read::{FetchError, read_into};
pub use resolving::{ResolveError, resolve};
pub use table::PartTable;
