//! The hello of a node: what it has.
ghost use Rattle.std.specs.Prelude.{◌≡◌, false, IfOk};
ghost use Rattle.depot_model.specs.exchange.Hello.{IsHello, text_of_hello, hello_of};

use depot_base::{Bytes, Memory};
use depot_model::{Hello, Peer};
use depot_streams::encode_hello;
use std::alloc::Global;

/// The node's hello: its number, whom it convicted, all leaves of what it accepted, and the first 1,024 values that it
/// lacks (docs/FORMATS.md).
pub fn node_hello<R: Peer>(node: &R) -> Result<Hello, Memory>
    requires { R.stopped node.now ≡ false }
    ensures told { IfOk result (λ hello. hello ≡ hello_of (R.stands node.now) (R.records node.now)) }
    ensures fits { IfOk result (λ hello. IsHello hello) }
{
    let convicted = node.convicted()?;
    let leaves = node.leaves()?;
    let wanted = node.wanted()?;
    Ok(Hello {
        node: node.me(),
        roster: *node.roster_hash(),
        convicted,
        leaves,
        wanted,
    })
}

/// The text of the node's hello.
pub fn hello<R: Peer>(alloc: Global, node: &R) -> Result<Bytes, Memory>
    requires { R.stopped node.now ≡ false }
    ensures { IfOk result (λ text. text ≡ text_of_hello (hello_of (R.stands node.now) (R.records node.now))) }
{
    let hello = node_hello(node)?;
    encode_hello(alloc, &hello)
}
