//! Texts of hellos.
ghost use Rattle.std.specs.Prelude.{◌≡◌, ◌^◌, ◌<◌, ◌++◌, length, OnOk, IfOk};
ghost use Rattle.std.specs.List.{flat_map};
ghost use Rattle.std.specs.Int.{w16};
ghost use Rattle.depot_base.specs.Cursor.{numeral};
ghost use Rattle.depot_base.specs.Format.{list_of, whole};
ghost use Rattle.depot_base.specs.Parts.{node_number, node_rises, digests};
ghost use Rattle.depot_base.specs.Reading.{Reads, Gives, Decodes};
ghost use Rattle.depot_model.specs.exchange.Hello.{hello, hello_leaf, hello_leaf_rises, IsHello, text_of_hello};

use depot_base::entry::{Entry, entries_in, put_entries};
use depot_base::fault::{Fault, answer};
use depot_base::limits::{MOST_LEAVES, MOST_NODES, MOST_WANTED};
use depot_base::reading::{at_end, hash_in, node_in, u8_in, u16_in};
use depot_base::{Bytes, DecodeError, Fields, Ids, Memory, Nodes};
use depot_model::{Hello, HelloLeaves};
use std::alloc::Global;

/// Reads `count` nodes, rising strictly.
#[tactic(auto, unfolding(depot_base::specs::Format::list_of))]
fn nodes_in(alloc: Global, fields: &mut Fields<'_>, count: u16) -> Result<Nodes, Fault>
    ensures { Reads result fields.new ((list_of count node_number node_rises).read fields.old) }
{
    let nodes = entries_in(alloc, fields, count, 0)?;
    Ok(Nodes::from_vec(nodes))
}

/// Reads `count` leaves, rising strictly by (writer, id).
#[tactic(auto, unfolding(depot_base::specs::Format::list_of))]
pub fn leaves_in(alloc: Global, fields: &mut Fields<'_>, count: u16) -> Result<HelloLeaves, Fault>
    ensures { Reads result fields.new ((list_of count hello_leaf hello_leaf_rises).read fields.old) }
{
    let leaves = entries_in(alloc, fields, count, 0)?;
    Ok(HelloLeaves::from_vec(leaves))
}

/// Reads `count` hashes, rising strictly.
#[tactic(auto, unfolding(depot_base::specs::Format::list_of))]
fn hashes_in(alloc: Global, fields: &mut Fields<'_>, count: u16) -> Result<Ids, Fault>
    ensures { Reads result fields.new ((digests count).read fields.old) }
{
    let hashes = entries_in(alloc, fields, count, 0)?;
    Ok(Ids::from_vec(hashes))
}

/// Reads a hello.
#[tactic(auto, unfolding(depot_model::specs::exchange::Hello::hello))]
fn hello_in(alloc: Global, fields: &mut Fields<'_>) -> Result<Hello, Fault>
    ensures { Reads result fields.new (hello.read fields.old) }
{
    u8_in(fields, 1, 1)?;
    u8_in(fields, 3, 3)?;
    let node = node_in(fields)?;
    let roster = hash_in(fields)?;
    let count = u16_in(fields, 0, MOST_NODES)?;
    let convicted = nodes_in(alloc, fields, count)?;
    let count = u16_in(fields, 0, MOST_LEAVES)?;
    let leaves = leaves_in(alloc, fields, count)?;
    let count = u16_in(fields, 0, MOST_WANTED)?;
    let wanted = hashes_in(alloc, fields, count)?;
    Ok(Hello {
        node,
        roster,
        convicted,
        leaves,
        wanted,
    })
}

/// Reads a hello from all the bytes that are left.
fn whole_hello(alloc: Global, fields: &mut Fields<'_>) -> Result<Hello, Fault>
    ensures { Gives result (whole hello fields.old) }
{
    let found = hello_in(alloc, fields)?;
    at_end(fields, found)
}

/// Decodes a hello (docs/FORMATS.md). `IllFormed` comes exactly where this is no hello's text, with the offset in bytes
/// of the first fault. Whether a roster has its node isn't checked.
pub fn decode_hello(alloc: Global, text: &[u8]) -> Result<Hello, DecodeError>
    ensures { Decodes hello text.now result }
{
    answer(whole_hello(alloc, &mut Fields::new(text)))
}

/// Writes entries after their count, two bytes.
#[tactic(auto, using(depot_base::proofs::Writing::texts))]
pub fn put_list<E: Entry>(out: &mut Bytes, list: &[E]) -> Result<(), Memory>
    requires { length list.now < 2 ^ 16 }
    ensures { OnOk result (out.new ≡ out.old ++ (numeral w16 (length list.now) ++ flat_map E.text list.now)) }
{
    out.push_u16(list.len() as u16)?;
    put_entries(out, list)
}

/// Writes a hello.
#[tactic(auto, using(depot_base::proofs::Writing::texts), unfolding(depot_model::specs::exchange::Hello::hello, depot_base::specs::Format::number, depot_base::specs::Format::bytes_of, depot_base::specs::Format::list_of))]
fn put_hello(out: &mut Bytes, hello: &Hello) -> Result<(), Memory>
    requires { IsHello hello.now }
    ensures { OnOk result (out.new ≡ out.old ++ text_of_hello hello.now) }
{
    out.push_u8(1)?;
    out.push_u8(3)?;
    out.push_u16(hello.node.number())?;
    out.push_all(hello.roster.bytes())?;
    put_list(out, hello.convicted.as_slice())?;
    put_list(out, hello.leaves.as_slice())?;
    put_list(out, hello.wanted.as_slice())
}

/// Encodes a hello, in 42 to 172,620 bytes (docs/FORMATS.md).
pub fn encode_hello(alloc: Global, hello: &Hello) -> Result<Bytes, Memory>
    requires { IsHello hello.now }
    ensures { IfOk result (λ text. text ≡ text_of_hello hello.now) }
{
    let mut out = Bytes::new(alloc);
    put_hello(&mut out, hello)?;
    Ok(out)
}
