//! The trusted edge: files, images in files, and standard output. All raise their count at each error and tell nothing of
//! what files hold or what was written.
#![tactic(auto)]

mod failure;
mod image;
mod library;
mod opening;
mod output;

pub use failure::{Call, Cause, Failure};
pub use image::FileDevice;
pub use library::FileLibrary;
pub use output::OutSink;
