// What rows ask of.
use mail_names::Bytes;
use org_directory::Directory;
use rule_terms::RuleBook;
use std::alloc::Global;

/// What a block's lines are.
#[derive(Clone, Copy, Debug, PartialEq, Eq)]
pub enum Block {
    Directory,
    /// A directory with forwards.
    Forwards,
    Rules,
}

/// What rows ask of, and the block that is open.
#[derive(Drop)]
pub struct Desk {
    pub directory: Directory,
    pub book: RuleBook,
    /// A message's text.
    pub mail: Bytes,
    pub block: Option<Block>,
    /// The lines of the block.
    pub text: Bytes,
}

impl Desk {
    pub fn new(alloc: Global) -> Desk {
        Desk {
            directory: Directory::empty(alloc),
            book: RuleBook::empty(alloc),
            mail: Bytes::new(alloc),
            block: None,
            text: Bytes::new(alloc),
        }
    }
}
