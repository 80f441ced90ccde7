//! Keys and signatures of each height, as `acceptance/models/winternitz_check.py` computes them independently of the
//! program.

use crate::hex_digits::is_hex;
use depot_base::{Hash32, Memory};
use depot_model::{Scheme, Signer};
use depot_winter::{WinterScheme, WinterSigner};
use sha2::{Digest, Sha256};
use std::alloc::Global;
use std::test::Fail;

/// A seed and a height, the root of the key, a leaf, and the length and the digest of its signature of `depot`.
type Worked = ([u8; 32], u8, &'static str, u32, usize, &'static str);

pub const ZEROS: [u8; 32] = [0; 32];

const RISING: [u8; 32] = [
    0, 1, 2, 3, 4, 5, 6, 7, 8, 9, 10, 11, 12, 13, 14, 15, 16, 17, 18, 19, 20, 21, 22, 23, 24, 25,
    26, 27, 28, 29, 30, 31,
];

static ONE_LAYER: [Worked; 12] = [
    (
        ZEROS,
        2,
        "80b60b73f57fe84fe1fd4077d8cc2cf136f20e85d37de8a1f0cda9a2966f32bc",
        1,
        2212,
        "65634a12f0fabf77240b2fe5c55ab4fdde9b0c149381afada4a90e52c99a03dd",
    ),
    (
        ZEROS,
        3,
        "a4aa7dead391bf885d34610f331178e40f9efa6e47c1366dc0beee9d63d52481",
        7,
        2244,
        "13e0dcf3f9191d4a2e5d8d5e80756d517b6979dc092d85ee2e9215df797c698d",
    ),
    (
        RISING,
        3,
        "84381f71b6dbca5919514c6780d82343273cdb440cf9c00b86709b303dcd767c",
        5,
        2244,
        "5172fcdd5f5b11e97bcc4a242e1416d02048ccc7532efee59ac620f4bfd4066b",
    ),
    (
        ZEROS,
        4,
        "4a61211300f35463b8d5f6b2122637e391285b068b46e3713cfc5a2e0b9086c9",
        9,
        2276,
        "91773b62cecbb8fb92d15d7811b5f22d22a7d1f76c251328a9429605464fe11e",
    ),
    (
        ZEROS,
        5,
        "c601d1e35c408024960d135bcd5004570c692b53491887ca6c7f49d33ccadc87",
        31,
        2308,
        "65015a6fe852d294239bc893f9e22283a4bda7ee09139b86f4b839a9694aabc9",
    ),
    (
        ZEROS,
        6,
        "72f82f2ba67309f72104965dfb3a8c712b470b44160acc09b7d67d694c5cb09c",
        0,
        2340,
        "34906bcee5119914f089a67431fda9b7405a839d75d77f29be1ddbe8497c4ef9",
    ),
    (
        ZEROS,
        7,
        "5a8ad1244b07cdeed29df1fe40f5f64ed7e34b6ec8e0f3370815f553ff2a477b",
        100,
        2372,
        "a5b6272a37faabd2de5a02a845b7eb86430ecf35e8c7ba79f3f2bbb946110008",
    ),
    (
        ZEROS,
        8,
        "ea0522cecdb31a71322d1d80c1213b32927978e58dd15d8ac343235ef37762c0",
        255,
        2404,
        "057d4133384068ed0e9e7a2885a5fb218bd3d5b0a06c876dc7f23bd5d8817275",
    ),
    (
        ZEROS,
        9,
        "4d933e8d86b9ef5e0456b09bfd4fe603fb069a5c202e7fe4abca4510ed1e67b0",
        256,
        2436,
        "3f6b73fec61483c2d58ca9adf5e99cac581c889b6294b2241f9461c002b76451",
    ),
    (
        ZEROS,
        10,
        "58d1582798dd2764ce5ab1a35e5d9d9b04d6f58db8fca057d42c9639af89703b",
        1_000,
        2468,
        "e452fcd1b4265c4c69975463c7b973b369a114d57f8376362c862e3684d3fc78",
    ),
    (
        ZEROS,
        11,
        "550df2cb494ccf82c8592d89d0f25e044d318d90c82214b33e7e6a7e6280207b",
        2_047,
        2500,
        "62f242ca7d1ce5ef6b2a48fa02c11914718d35275ca1882b496ed5ce46fe6e80",
    ),
    (
        ZEROS,
        12,
        "f380348f4952988d1636b164a080e6703dc82f1bcfd47ae89fc2d96b4399be54",
        4_095,
        2532,
        "a6d589a7e8710864c7d67777d5f29fe8d32ccad92d1457dda09e760e6660e55e",
    ),
];

static TWO_LAYERS: [Worked; 9] = [
    (
        ZEROS,
        13,
        "a7ffe2d16ef42275002289f6ea12405ec2b240665004ea85208c8c93ea20dc5e",
        0,
        4708,
        "66808e8c0fa4d9c6444a08682ac9254d4ca69874311b0ba4281b94e3b22b194d",
    ),
    (
        ZEROS,
        13,
        "a7ffe2d16ef42275002289f6ea12405ec2b240665004ea85208c8c93ea20dc5e",
        255,
        4708,
        "7c115f4ed365e6da2715fff67a03ae7b513a35b75aa7923f82c92f7c3de731af",
    ),
    (
        ZEROS,
        13,
        "a7ffe2d16ef42275002289f6ea12405ec2b240665004ea85208c8c93ea20dc5e",
        256,
        4708,
        "7356e0e104759755d800184284e12164fcf9d5674d18c5a882980231c0d3b9d5",
    ),
    (
        ZEROS,
        13,
        "a7ffe2d16ef42275002289f6ea12405ec2b240665004ea85208c8c93ea20dc5e",
        8_191,
        4708,
        "c7cb81b15199ba5961735106efc88912eac20bf15a4263354ba04c5459e87ea1",
    ),
    (
        ZEROS,
        14,
        "abf8c1f265bad930b4b8d1876bbb9eb52d585d0c4111942ebb89ddc383301309",
        16_383,
        4740,
        "e646d042e71e6aa6bdd38b8acd5f38c6e9bfc83470d2fe1db2f799b7109489eb",
    ),
    (
        ZEROS,
        15,
        "4c14d00c9325ade86401ff4384564657a71b8201dfe7b95b2d5f6cd1edf62982",
        20_000,
        4772,
        "818cf2ab018575d4e9acc42e867f961b0d137e2125c6c192343f965ac80087f7",
    ),
    (
        ZEROS,
        16,
        "f6364e6fb2aaa7a9c1d1511a95e4dddd11eedf307922ceb2648c5a54e2cdcdfd",
        256,
        4804,
        "fdc346e424e1de7989ae165d22b1dfbfb839935dc3de5dcb776d494ae8ce1b68",
    ),
    (
        ZEROS,
        17,
        "61d1979fb5f0d1bc50eb26517347c30a99f21d86f4dc798486e9d6b3b23dac49",
        65_536,
        4836,
        "2ec6bf9b80e27814ef6f2528c893a7bc5329342033b8c9d95bf066e561207337",
    ),
    (
        ZEROS,
        17,
        "61d1979fb5f0d1bc50eb26517347c30a99f21d86f4dc798486e9d6b3b23dac49",
        131_071,
        4836,
        "92df1e0ef12786d2e2f508fd0afdd87e283562d4fac60674e89fff4cd287b6f6",
    ),
];

/// Whether the signature of `depot` by a leaf has this length and this digest, and verifies.
fn signs_so(
    alloc: Global,
    signer: &WinterSigner,
    seq: u32,
    length: usize,
    digest: &str,
) -> Result<bool, Memory> {
    let key = signer.key();
    if !key.has_leaf(seq) {
        return Ok(false);
    }
    let signature = signer.sign(seq, b"depot")?;
    let text = signature.as_slice();
    let told: [u8; 32] = Sha256::digest(text);
    Ok(
        text.len() == length
            && is_hex(alloc, &told, digest)
            && WinterScheme.verify(&key, seq, b"depot", text),
    )
}

/// Whether a key and its signature are those.
fn is_worked(alloc: Global, worked: &Worked) -> Result<bool, Memory> {
    let (seed, height, root, seq, length, digest) = worked;
    if *height < 2 || *height > 17 {
        return Ok(false);
    }
    let signer = WinterSigner::from_seed(alloc, &Hash32::new(*seed), *height)?;
    let key = signer.key();
    Ok(is_hex(alloc, key.root.bytes(), root) && signs_so(alloc, &signer, *seq, *length, digest)?)
}

#[test]
fn keys_of_one_layer_sign_as_the_format_says(rt: HostRuntime) -> Result<(), Fail> {
    for worked in ONE_LAYER.iter() {
        assert!(rt; is_worked(rt.alloc(), worked)?, "height {}", worked.1);
    }
    Ok(())
}

#[test]
fn keys_of_two_layers_sign_as_the_format_says(rt: HostRuntime) -> Result<(), Fail> {
    for worked in TWO_LAYERS.iter() {
        assert!(rt;
            is_worked(rt.alloc(), worked)?,
            "height {} leaf {}",
            worked.1,
            worked.3
        );
    }
    Ok(())
}
