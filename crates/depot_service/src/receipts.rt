//! Whether enough nodes gave receipts.
ghost use Rattle.std.specs.Prelude.{◌≡◌, false, length, nat_le, IfOk};
ghost use Rattle.depot_model.specs.worlds.Receipts.{receipts};

use depot_base::{Hash32, Memory};
use depot_queries::{Book, LocalNode};
use std::alloc::Global;

/// Whether at least `k` nodes gave receipts for an id, among all updates that a node accepted. It makes a new book.
pub fn has_receipts<N: LocalNode>(
    alloc: Global,
    node: &N,
    id: &Hash32,
    k: u32,
) -> Result<bool, Memory>
    requires { N.stopped node.now ≡ false }
    ensures { IfOk result (λ enough. enough ≡ nat_le k (length (receipts (N.records node.now) id.now))) }
{
    let mut book = Book::new(alloc);
    book.catch_up(node.graph())?;
    Ok(book.settled(id, k))
}
