// Room for what a call writes. A slice that is lent is a part of one of these arrays, as long as the question says.
// Every word is 99 before and every byte a dot, so that each one that is written shows.
ghost use Rattle.std.specs.Prelude.{◌≡◌, length};

use input::room;

// As many words as the longest lowered record has: 512 steps of 16 lifetimes.
pub(crate) const WORDS: usize = 8192;

// Those of 4,096 edges, as many as a listing may have, five words each.
pub(crate) const EDGES: usize = 20480;

// Bytes of a sheet, or of a listing: enough for those that are asked about here. The program `readings` has the
// longest.
pub(crate) const BYTES: usize = 16384;

// Every word before it is written.
const UNWRITTEN: usize = 99;

pub(crate) fn words() -> [usize; WORDS]
    ensures size { 8192 ≡ length result }
{
    room(UNWRITTEN)
}

pub(crate) fn edges() -> [usize; EDGES]
    ensures size { 20480 ≡ length result }
{
    room(UNWRITTEN)
}

pub(crate) fn bytes() -> [u8; BYTES]
    ensures size { 16384 ≡ length result }
{
    room(b'.')
}

// A few words, for a call that writes no more.
pub(crate) fn few<const N: usize>() -> [usize; N]
    ensures size { N ≡ length result }
{
    room(UNWRITTEN)
}
