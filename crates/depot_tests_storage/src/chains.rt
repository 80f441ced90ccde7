ghost use Rattle.std.specs.Prelude.{◌≡◌, [], length, OnOk};

use depot_base::Memory;
use depot_order::*;
use std::test::Fail;

fn at(chain: u32, place: u32) -> Spot {
    Spot { chain, place }
}

/// Adds six items, and says whether each gets its spot.
fn grow(chains: &mut Chains) -> Result<bool, Memory>
    requires { chains.old.prevs ≡ [] }
    ensures { OnOk result (length chains.new.prevs ≡ 6) }
{
    let first = chains.add(None)?;
    let second = chains.add(Some(0))?;
    let third = chains.add(Some(0))?;
    let fourth = chains.add(Some(1))?;
    let fifth = chains.add(None)?;
    let sixth = chains.add(Some(2))?;
    Ok(
        [first, second, third] == [at(0, 0), at(0, 1), at(1, 0)]
            && [fourth, fifth, sixth] == [at(0, 2), at(2, 0), at(1, 1)],
    )
}

/// Whether the six items are in three chains, whose last items are known.
fn has_three(chains: &Chains) -> bool
    requires { length chains.now.prevs ≡ 6 }
{
    chains.spot(4) == at(2, 0)
        && chains.spot(5) == at(1, 1)
        && chains.chain_count() == 3
        && [chains.tip(0), chains.tip(1), chains.tip(2)] == [3, 5, 4]
}

#[test]
fn first_children_continue_their_chain(rt: HostRuntime) -> Result<(), Fail> {
    let mut chains = Chains::new(rt.alloc());
    chains.reserve()?;
    assert!(rt; grow(&mut chains)?);
    assert!(rt; has_three(&chains));
    one_chain_is_one_path();
    Ok(())
}
