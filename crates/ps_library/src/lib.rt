//! The search path: from a file's name to its bytes, by `fetch`, and from the words of a command line to the folders of the
//! path, by `folders_of`.
//!
//! A library gives the bytes of a named file piece by piece, and may fail at a call and go on at the next. The search path
//! is a list of boxed libraries, which are asked from the first. Libraries stand here in memory and over folders.
#![tactic(auto)]

mod fetching;
mod folder_library;
mod folders;
mod library;
mod memory_library;

pub use fetching::{FetchFault, fetch};
pub use folder_library::{FolderLibrary, Part};
pub use folders::folders_of;
pub use library::{LibPiece, Library};
pub use memory_library::{MemoryLibrary, NamedText, NamedTexts};
