//! Messages in hexadecimal, for the tests of a conversation and of a run.
use hex::decode;
use std::alloc::Global;
use std::test::Fail;

// A Tversion of 65560 bytes and 9P2000, a Tattach of glenda with fid 0, a Tstat of it, a Tcreate of `f` in it for reading and writing
// and with ORCLOSE, the same without ORCLOSE, a Twrite of `hi` to it, a Tclunk of it, a Twalk with fid 1 from the root to `f`, a Topen
// and a Tread of that, a Tflush, and what is replied to each, to the walk after one write.
const V: &str = "1300000064ffff180001000600395032303030";

const T: &str = "1900000068010000000000ffffffff0600676c656e64610000";

const S: &str = "0b0000007c020000000000";

const C: &str = "13000000720200000000000100668001000042";

const M: &str = "13000000720200000000000100668001000002";

const D: &str = "19000000760400000000000000000000000000020000006869";

const K: &str = "0b00000078020000000000";

const W: &str = "140000006e030000000000010000000100010066";

const O: &str = "0c0000007005000100000000";

const R: &str = "170000007406000100000000000000000000000a000000";

const F: &str = "090000006c01000000";

const RV: &str = "1300000065ffff180001000600395032303030";

const RT: &str = "1400000069010080000000000000000000000000";

const RS: &str =
    "440000007d02003b00390000000000000080000000000000000000000000ff0100800000000000000000000000000000000001002f030061646d030061646d030061646d";

const RC: &str = "180000007302000000000000010000000000000000000100";

const RD: &str = "0b00000077040002000000";

const RK: &str = "07000000790200";

const RW: &str = "160000006f0300010000010000000100000000000000";

const RO: &str = "180000007105000001000000010000000000000000000100";

const RR: &str = "0d000000750600020000006869";

const RF: &str = "070000006d0100";

// What a word stands for in hexadecimal: the name of one above, or itself.
fn hex_of(word: &str) -> &str {
    match word {
        "V" => V,
        "T" => T,
        "S" => S,
        "C" => C,
        "M" => M,
        "D" => D,
        "K" => K,
        "W" => W,
        "O" => O,
        "R" => R,
        "F" => F,
        "RV" => RV,
        "RT" => RT,
        "RS" => RS,
        "RC" => RC,
        "RD" => RD,
        "RK" => RK,
        "RW" => RW,
        "RO" => RO,
        "RR" => RR,
        "RF" => RF,
        _ => word,
    }
}

/// Adds the bytes of a word.
fn append(alloc: Global, word: &str, bytes: &mut Vec<u8>) -> Result<(), Fail> {
    bytes.extend_from_slice(decode(alloc, hex_of(word))?.as_slice())?;
    Ok(())
}

/// The bytes of these words, each the name of a message or hexadecimal.
pub fn bytes(alloc: Global, text: &str) -> Result<Vec<u8>, Fail> {
    let mut bytes = Vec::new(alloc);
    for word in text.split_whitespace() {
        append(alloc, word, &mut bytes)?;
    }
    Ok(bytes)
}
