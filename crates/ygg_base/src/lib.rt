//! What every crate of the verifier stands on: texts, tokens, refusals, and the outside (files, output, and devices: images by name that are read and
//! written in blocks) with implementations in memory.
#![tactic(auto)]

mod device;
mod failure;
mod geometry;
mod image;
mod lists;
mod outside;
mod ram;
mod reason;
mod shelf;
mod sink;
mod status;
mod token;
mod tokens;

pub use device::{Attach, Device, Made};
pub use failure::{Refusal, Refuse};
pub use geometry::{DiskKind, Geometry};
pub use image::blocks_in;
pub use lists::{Bits, Files, Held, Numbers, Text};
pub use outside::{Fetch, Library, Moved, Opened, Piece, Sink};
pub use ram::RamDevice;
pub use reason::Reason;
pub use shelf::Shelf;
pub use sink::TextSink;
pub use status::{Status, status_number};
pub use token::{Keyword, Mark, Symbol, Token};
pub use tokens::Tokens;
pub use ygg_list::{Duplicate, NoMemory, Sequence};
