//! Which names stand for one file, and which files of a run clash.
#![tactic(auto)]

mod identities;
mod identity;
mod links;

pub use identities::{FileIdentities, Place};
pub use identity::{
    FileIdentity, FileKind, Namespace, Node, identity_of, identity_of_file, is_any,
};
