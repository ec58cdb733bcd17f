// The tables of a sheet, and the triangle rule over them.
#![tactic(auto)]

ghost use Rattle.std.specs.Prelude.{◌≡◌, ◌+◌, ◌*◌, ◌<◌, ◌≤◌, length, pos};
ghost use Rattle.std.specs.Int.Signed.{le_z};
ghost use Rattle.laws.specs.Basic.{all_below};
ghost use Rattle.words.specs.Word.{words, word_at};
ghost use Rattle.rules.specs.Day.{triangle};
ghost use Rattle.tables.specs.Cell.{cell, Table};
ghost use Rattle.tables.specs.Square.{wide_of, InRange, Cleared, Copied, Squared, line_ok, strip_ok, row_ok};

use words::word;

// A table as numbers, each built from its bytes once: its rows one after another, each with 0 on the diagonal and made up with 0 to `wide` entries.
#[derive(Clone, Copy)]
struct Square;

impl Square {
    // A row is made up to a multiple of this, so that vector code is left with no single entries.
    const STEP: usize = 8;

    // So many entries of a row stay in vector registers while the rows before it go by.
    const STRIP: usize = 32;

    // A table of few rows, and one of some more, has a room of its own, which is cleared sooner: most rows, and the room.
    const FEW: usize = 16;

    const SMALL: usize = 256;

    const SOME: usize = 32;

    const MIDDLE: usize = 1024;

    // The room for any table.
    const LARGE: usize = 4096;
}

// n entries of a table, from word `at` on, into the square from `to` on.
fn read_row(s: &[u8], at: usize, n: usize, to: usize, square: &mut [u32])
    requires { (at + n ≤ words s.now) × (to + n ≤ length square.old) }
    ensures { Copied square.old to n (λ k. word_at s.now (at + k)) square.new }
{
    for k in 0..n {
        square[to + k] = word(s, at + k);
    }
}

// Every row of a table of n rows whose entries begin at word `from`.
fn read_rows(s: &[u8], from: usize, n: usize, wide: usize, square: &mut [u32])
    requires { Table s.now from n × (n ≤ wide) × (n * wide ≤ length square.old) × Cleared square.old }
    ensures { Squared n wide (cell s.now from n) n square.new × (length square.new ≡ length square.old) }
{
    let mut at = from;
    let mut to = 0;
    for i in 0..n {
        read_row(s, at, n, to, square);
        square[to + i] = 0;
        at += n;
        to += wide;
    }
}

// Every entry of one row against that of another, from `a` and from `b` on, both ways round: what one is above the other must be within `there`, and the
// other way within `back`. What is left of either is gathered, with no exit inside: vector code, and the sign tells if one was broken. `near` is taken
// from `far`, not the other way: `near` stays in its register, and `far` was just loaded, so nothing is copied.
fn line_left(square: &[u32], a: usize, b: usize, width: usize, there: u32, back: u32) -> i32
    requires { (a + width ≤ length square.now) × (b + width ≤ length square.now) × InRange square.now × (there ≤ 1000000) × (back ≤ 1000000) }
    ensures { le_z (pos 0) result ≡ all_below width (line_ok square.now there back a b) }
{
    let to = there as i32;
    let fro = back as i32;
    let mut left = 0i32;
    for k in 0..width {
        let near = square[a + k] as i32;
        let far = square[b + k] as i32;
        let below = far - near;
        left = left | (to + below) | (fro - below);
    }
    left
}

// A strip of row i, `width` entries from k on, against that of every row before it.
fn strip_left(square: &[u32], wide: usize, i: usize, k: usize, width: usize) -> i32
    requires { (i < wide) × (i * wide + wide ≤ length square.now) × (k + width ≤ wide) × InRange square.now }
    ensures { le_z (pos 0) result ≡ all_below i (strip_ok square.now wide i k width) }
{
    let a = i * wide;
    let mut left = 0i32;
    let mut b = 0;
    for j in 0..i {
        let there = square[a + j];
        let back = square[b + i];
        let line = line_left(square, a + k, b + k, width, there, back);
        left |= line;
        b += wide;
    }
    left
}

// Row i against every row before it, strip by strip. The compiler makes code of its own for the full strips, whose width it knows: they go on while
// one fits into what is left, and the rest begins where they end.
fn row_ok(square: &[u32], wide: usize, i: usize) -> bool
    requires { (i < wide) × (i * wide + wide ≤ length square.now) × InRange square.now }
    ensures { result ≡ row_ok square.now wide i }
{
    let mut left = 0i32;
    let mut k = 0;
    while Square::STRIP <= wide - k {
        let strip = strip_left(square, wide, i, k, Square::STRIP);
        left |= strip;
        k += Square::STRIP;
    }
    let rest = strip_left(square, wide, i, k, wide - k);
    (left | rest) >= 0
}

// The triangle rule of a table, with room for its square. All rows are read before one is asked, since vector code waits for what was just written.
fn table_ok(s: &[u8], from: usize, n: usize, room: &mut [u32]) -> bool
    requires { Table s.now from n × (n * wide_of n ≤ length room.old) × Cleared room.old }
    ensures { result ≡ triangle n (cell s.now from n) }
{
    let wide = (n + 7) / Square::STEP * Square::STEP;
    read_rows(s, from, n, wide, room);
    (0..n).all(|i| row_ok(room, wide, i))
}

// The same with a room of its own, of ROOM entries.
fn in_room<const ROOM: usize>(s: &[u8], from: usize, n: usize) -> bool
    requires { Table s.now from n × (n * wide_of n ≤ ROOM) × (ROOM ≤ 4096) }
    ensures { result ≡ triangle n (cell s.now from n) }
{
    let mut room = [0u32; ROOM];
    table_ok(s, from, n, &mut room)
}

// The triangle rule of a table of n rows whose entries begin at word `from`.
#[tactic(auto, using(crate::proofs::SquareLaws::room_holds))]
pub fn triangle_ok(s: &[u8], from: usize, n: usize) -> bool
    requires { Table s.now from n }
    ensures { result ≡ triangle n (cell s.now from n) }
{
    if n <= Square::FEW {
        in_room::<{ Square::SMALL }>(s, from, n)
    } else if n <= Square::SOME {
        in_room::<{ Square::MIDDLE }>(s, from, n)
    } else {
        in_room::<{ Square::LARGE }>(s, from, n)
    }
}
