//! Lists that are kept from line to line, so that the next line takes no memory for them again. Depends on `syntax`
//! and `token`.
use crate::syntax::{Operand, Syntax, SyntaxPart};
use crate::token::WordToken;
use std::alloc::Global;
use std::collections::VecDeque;
use std::mem;

/// The parts that are left.
pub type SyntaxParts<'a> = VecDeque<SyntaxPart<'a>>;

/// Lists whose room the next line uses. What is in them means nothing.
#[derive(Drop)]
pub struct KeptLists<'a> {
    pub parts: SyntaxParts<'a>,
    pub lists: InsertLists<'a>,
}

/// The lists of an insert.
#[derive(Drop)]
pub struct InsertLists<'a> {
    names: Vec<WordToken<'a>>,
    values: Vec<Operand<'a>>,
}

impl<'a> KeptLists<'a> {
    /// Lists without room.
    pub fn new(alloc: Global) -> KeptLists<'a> {
        KeptLists {
            parts: VecDeque::new(alloc),
            lists: InsertLists {
                names: Vec::new(alloc),
                values: Vec::new(alloc),
            },
        }
    }

    /// Takes back the lists of a statement that was read.
    pub fn take_back(&mut self, syntax: Syntax<'a>) {
        if let Syntax::Insert { names, values, .. } = syntax {
            self.lists.names = names.into_vec();
            self.lists.values = values.into_vec();
        }
    }
}

impl<'a> InsertLists<'a> {
    /// The room of names.
    pub fn for_names(&mut self, alloc: Global) -> Vec<WordToken<'a>> {
        mem::replace(&mut self.names, Vec::new(alloc))
    }

    /// The room of values.
    pub fn for_values(&mut self, alloc: Global) -> Vec<Operand<'a>> {
        mem::replace(&mut self.values, Vec::new(alloc))
    }
}
