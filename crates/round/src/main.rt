// The program `round`: a day sheet on standard input, the listing of its steps on standard output.
#![tactic(auto)]

ghost use Rattle.std.specs.Prelude.{◌≡◌, ◌≤◌, length, take, replicate, OnOk, IfSome};
ghost use Rattle.std.specs.Io.KnownBytes.{Appends};
ghost use Rattle.dock.specs.Listing.{printed};

use dock::{TEXT, TRAIL};
use intake::read_full;
use listing::put_refused;
use rules::Refusal;
use std::io::{self, Read, Write};

// The bytes of the longest sheet. One more is read, by which a longer input is known.
const SHEET: usize = 60396;

// What the program prints for an input, into a buffer; the answer is its length.
fn put_printed(input: &[u8], trail: &mut [u64], out: &mut [u8]) -> usize
    requires { (trail.old ≡ replicate 64480 0) × (length out.old ≡ 410800) }
    ensures { (take result out.new ≡ printed input.now) × (result ≤ length out.new) }
{
    if SHEET < input.len() {
        return put_refused(out, 0, Refusal::Short.number() as u64);
    }
    dock::lines::list(input, trail, out)
}

// Writes what is printed for the input.
fn write<W: Write>(output: &mut W, input: &[u8], out: &[u8], used: usize) -> io::Result<()>
    requires { (take used out.now ≡ printed input.now) × (used ≤ length out.now) }
    ensures { OnOk result (Appends (W.contents output.old) (W.contents output.new) (printed input.now)) }
{
    output.write_all(&out[..used])
}

// Reads a sheet to its end, or to the byte by which it is too long, and writes what is printed for it.
fn run<R: Read, W: Write>(input: &mut R, output: &mut W) -> io::Result<()>
    ensures { OnOk result (IfSome (R.remaining input.old)
        (λ sheet. Appends (W.contents output.old) (W.contents output.new) (printed sheet))) }
{
    let mut bytes = [0u8; SHEET + 1];
    let mut trail = [0u64; TRAIL];
    let mut out = [0u8; TEXT];
    let n = read_full(input, &mut bytes)?;
    let sheet = &bytes[..n];
    let used = put_printed(sheet, &mut trail, &mut out);
    write(output, sheet, &out, used)
}

fn main(rt: HostRuntime) -> io::Result<()> {
    run(&mut rt.stdin(), &mut rt.stdout())
}
