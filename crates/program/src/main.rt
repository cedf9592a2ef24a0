// A tracking unit with four fast and four slow frames: a call file from standard input, the replies
// to standard output. Everything that matters is in the proved libraries.
#![tactic(auto)]

ghost use Rattle.std.specs.Prelude.{◌≡◌, ℕ, length, take, IfOk, IfSome, OnOk, OnErr};
ghost use Rattle.std.specs.Counts.{IsPrefixLen};
ghost use Rattle.std.specs.Io.KnownBytes.{Appends, Consumes};
ghost use Rattle.program.specs.Served.{most, zero_store, output, Lends};

use messages::{Tally, fill};
use std::io;
use std::io::{ErrorKind, Read, Write};
use tables::Tables;

// Reads the call file. What comes after the buffer's 60000 bytes is treated as absent.
fn read_file<R: Read>(input: &mut R, file: &mut [u8]) -> io::Result<usize>
    requires { length file.old ≡ most }
    ensures prefix_len { IfOk result (λ n. IsPrefixLen n file.new) }
    ensures bytes { IfOk result (λ n. IfSome (R.remaining input.old) (λ xs. take n file.new ≡ take most xs)) }
    ensures err { OnErr result
        ((n : ℕ) × Consumes (R.remaining input.old) (R.remaining input.new) (take n file.new)) }
{
    let mut done = 0;
    while done < file.len() {
        let n = input.read(&mut file[done..])?;
        if n == 0 {
            return Ok(done);
        }
        done += n;
    }
    Ok(done)
}

// Carries out the call file from fresh tables. All replies stand at the front of the buffer, in as many bytes as it
// answers.
fn serve(file: &[u8], fast: &mut [u8], slow: &mut [u8], out: &mut [u8]) -> usize
    requires { Lends file.now fast.old slow.old out.old }
    ensures prefix_len { IsPrefixLen result out.new }
    ensures out_after { take result out.new ≡ output file.now fast.old slow.old }
{
    let fresh = Tables::fresh(4, 4).unwrap_or_else(|refused| refused.instead);
    let none = Tally {
        messages: 0,
        refusals: 0,
        laid: 0,
    };
    let done = fill(fresh, fast, slow, file, 0, out, none);
    done.used
}

// Writes the replies to the file, and nothing else.
fn write_replies<W: Write>(to: &mut W, file: &[u8], replies: &[u8]) -> io::Result<()>
    requires { replies.now ≡ output file.now zero_store zero_store }
    ensures all { OnOk result (Appends (W.contents to.old) (W.contents to.new) replies.now) }
    ensures err { OnErr result
        ((n : ℕ) × Appends (W.contents to.old) (W.contents to.new) (take n replies.now)) }
{
    let mut rest = replies;
    while !rest.is_empty() {
        let n = to.write(rest)?;
        if n == 0 {
            return Err(io::Error::from(ErrorKind::WriteZero));
        }
        rest = &rest[n..];
    }
    Ok(())
}

// So many zeros. Proofs see how many there are, and do not write them out.
fn zeros<const N: usize>() -> [u8; N]
    ensures { length result ≡ N }
{
    [0; N]
}

fn main(rt: HostRuntime) -> io::Result<()> {
    let mut file = [0u8; 60000];
    let mut fast = [0u8; 256];
    let mut slow = [0u8; 256];
    // 35 bytes for each 4 of the file, and 70 more.
    let mut out = zeros::<525070>();
    let n = read_file(&mut rt.stdin(), &mut file)?;
    let used = serve(&file[..n], &mut fast, &mut slow, &mut out);
    write_replies(&mut rt.stdout(), &file[..n], &out[..used])
}
