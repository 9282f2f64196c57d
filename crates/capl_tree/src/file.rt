// Files and programs.

use crate::declaration::Decl;
use crate::procedure::Proc;
use items::Items;
use texts::Text;

/// A part of a file at its outermost level.
#[derive(Drop)]
pub enum TopItem {
    /// `includes { .. }`, by the names of the files.
    Includes(Items<Text>),
    /// `variables { .. }`
    Variables(Items<Decl>),
    /// An event procedure or a function.
    Proc(Proc),
}

/// The tree of a file.
pub struct FileTree {
    /// Its parts, in order.
    pub items: Items<TopItem>,
}

// Written out, so that no crate that drops files has the drops of all parts of trees proved once more.
impl Drop for FileTree {
    fn drop(self) {
        let FileTree { items } = self;
        drop(items);
    }
}

/// The trees of the files of a program.
#[derive(Drop)]
pub struct Program {
    /// The files in program order: what a file includes stands before it, and each file once.
    pub files: Items<FileTree>,
}
